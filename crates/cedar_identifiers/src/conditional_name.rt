ghost use Rattle.std.specs.Prelude.{◌≡◌};

use crate::internal_name::InternalName;
use crate::raw_name::RawName;
use crate::reference_type::ReferenceType;
use cedar_data::{CloneIn, NonEmpty};
use std::alloc::{AllocError, Global};

/// A reference: the names that it may stand for, the first that is defined before the others.
#[derive(PartialEq, Eq, PartialOrd, Ord, Hash)]
pub struct ConditionalName {
    /// The names that it may stand for, in the order in which they are tried.
    pub possibilities: NonEmpty<InternalName>,
    /// The name as it was written.
    pub raw: RawName,
    /// What it may mean.
    pub reference_type: ReferenceType,
}

impl Drop for ConditionalName {
    fn drop(self) {
        let ConditionalName {
            possibilities: _possibilities,
            raw: _raw,
            reference_type: _reference_type,
        } = self;
    }
}

impl ConditionalName {
    /// The names that it may stand for, the first that is defined before the others.
    pub fn possibilities(&self) -> &NonEmpty<InternalName>
        ensures { result.now ≡ self.now.possibilities }
    {
        &self.possibilities
    }

    /// The name as it was written.
    pub fn raw(&self) -> &RawName
        ensures { result.now ≡ self.now.raw }
    {
        &self.raw
    }

    /// What it asks for.
    pub fn reference_type(&self) -> ReferenceType
        ensures { result ≡ self.now.reference_type }
    {
        self.reference_type
    }
}

impl CloneIn for ConditionalName {
    fn clone_in(&self, alloc: Global) -> Result<Self, AllocError> {
        Ok(ConditionalName {
            possibilities: self.possibilities.clone_in(alloc)?,
            raw: self.raw.clone_in(alloc)?,
            reference_type: self.reference_type,
        })
    }
}
