use cedar_data::CloneIn;
use std::alloc::{AllocError, Global};

/// A backslash that begins no escape, by its byte offset in the text.
#[derive(Clone, Copy, PartialEq, Eq)]
pub struct UnescapeError {
    /// The byte offset of the backslash.
    pub at: usize,
}

impl CloneIn for UnescapeError {
    fn clone_in(&self, _alloc: Global) -> Result<Self, AllocError> {
        Ok(*self)
    }
}
