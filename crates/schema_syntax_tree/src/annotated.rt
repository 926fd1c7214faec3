ghost use Rattle.std.specs.Prelude.{◌≡◌};

use crate::src_annotations::SrcAnnotations;
use cedar_data::CloneIn;
use std::alloc::{AllocError, Global};

/// An item, and the annotations that stand before it.
#[derive_where(PartialEq, Eq, PartialOrd, Ord, Hash; T)]
pub struct Annotated<'a, T> {
    pub item: T,
    pub annotations: SrcAnnotations<'a>,
}

impl<'a, T: Drop> Drop for Annotated<'a, T> {
    fn drop(self) {
        let Annotated {
            item: _item,
            annotations: _annotations,
        } = self;
    }
}

impl<'a, T> Annotated<'a, T> {
    /// The item, and the annotations.
    pub fn into_parts(self) -> (T, SrcAnnotations<'a>)
        ensures { result ≡ (self.entry.item, self.entry.annotations) }
    {
        let Annotated { item, annotations } = self;
        (item, annotations)
    }
}

impl<'a, T: CloneIn> CloneIn for Annotated<'a, T> {
    fn clone_in(&self, alloc: Global) -> Result<Self, AllocError> {
        Ok(Annotated {
            item: self.item.clone_in(alloc)?,
            annotations: self.annotations.clone_in(alloc)?,
        })
    }
}
