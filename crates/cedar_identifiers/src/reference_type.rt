use cedar_data::CloneIn;
use std::alloc::{AllocError, Global};

/// What a reference asks for: a common type, an entity type, or either.
#[derive(Clone, Copy, PartialEq, Eq, PartialOrd, Ord, Hash)]
pub enum ReferenceType {
    Common,
    Entity,
    CommonOrEntity,
}

impl CloneIn for ReferenceType {
    fn clone_in(&self, alloc: Global) -> Result<Self, AllocError> {
        Ok(*self)
    }
}
