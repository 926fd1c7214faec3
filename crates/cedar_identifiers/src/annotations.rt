ghost use Rattle.std.specs.Prelude.{◌≡◌, ◌↔◌, true, []};

use crate::any_id::AnyId;
use cedar_data::{CloneIn, SharedMap, Text};
use std::alloc::{AllocError, Global};

/// What is said beside an item: keys, each with a value or without one. Copies share what they say.
#[derive(PartialEq, Eq, PartialOrd, Ord, Hash)]
pub struct Annotations(pub SharedMap<AnyId, Option<Text>>);

impl Drop for Annotations {
    fn drop(self) {
        let Annotations(_value) = self;
    }
}

impl Annotations {
    /// No annotation, which takes no memory.
    pub fn new(alloc: Global) -> Annotations
        ensures { result.0 ≡ [] }
    {
        Annotations(SharedMap::new())
    }

    /// Whether there is no annotation.
    pub fn is_empty(&self) -> bool
        ensures { result ≡ true ↔ self.now.0 ≡ [] }
    {
        self.0.as_slice().is_empty()
    }
}

impl CloneIn for Annotations {
    fn clone_in(&self, alloc: Global) -> Result<Self, AllocError> {
        Ok(Annotations(self.0.clone_in(alloc)?))
    }
}
