use crate::clone_in::CloneIn;
use crate::loc::Loc;
use crate::text::Text;
use std::alloc::{AllocError, Global};

/// A place that a report points to, and what it says there.
pub struct Label {
    /// The place.
    pub span: Loc,
    /// What is said there, where anything is.
    pub text: Option<Text>,
}

impl Drop for Label {
    fn drop(self) {
        let Label {
            span: _span,
            text: _text,
        } = self;
    }
}

impl CloneIn for Label {
    fn clone_in(&self, alloc: Global) -> Result<Self, AllocError> {
        Ok(Label {
            span: self.span,
            text: self.text.clone_in(alloc)?,
        })
    }
}
