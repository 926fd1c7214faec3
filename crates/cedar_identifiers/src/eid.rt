use cedar_data::{CloneIn, Text};
use std::alloc::{AllocError, Global};

/// What tells an entity from the others of its type: any text.
#[derive(PartialEq, Eq, PartialOrd, Ord, Hash, Drop)]
pub struct Eid(pub Text);

impl CloneIn for Eid {
    fn clone_in(&self, alloc: Global) -> Result<Self, AllocError> {
        Ok(Eid(self.0.clone_in(alloc)?))
    }
}
