ghost use Rattle.std.specs.Prelude.{◌≡◌};
ghost use Rattle.cedar_data.specs.NonEmpty.{items_left};

use cedar_data::{CloneIn, NonEmpty, NonEmptyIter};
use cedar_identifiers::InternalName;
use std::alloc::{AllocError, AllocFailed, Global};

/// Names that a namespace has both as an entity type and as a common type, sorted.
pub struct NameCollisionsError {
    pub names: NonEmpty<InternalName>,
}

impl Drop for NameCollisionsError {
    fn drop(self) {
        let NameCollisionsError { names: _names } = self;
    }
}

/// Entity types whose shapes are no records, sorted by their names.
pub struct UnconvertibleEntityTypeShapeError {
    pub names: NonEmpty<InternalName>,
}

impl Drop for UnconvertibleEntityTypeShapeError {
    fn drop(self) {
        let UnconvertibleEntityTypeShapeError { names: _names } = self;
    }
}

/// Why a fragment cannot be printed: names collide, a shape is no record, or out of memory.
#[derive(Drop)]
pub enum ToCedarSchemaSyntaxError {
    /// A namespace has entity types and common types of the same names.
    NameCollisions(NameCollisionsError),
    /// Entity types have shapes that are no records.
    UnconvertibleEntityTypeShape(UnconvertibleEntityTypeShapeError),
    /// Out of memory.
    Memory,
}

impl NameCollisionsError {
    /// The names, in order.
    pub fn names(&self) -> NonEmptyIter<'_, InternalName>
        ensures { items_left result ≡ self.now.names }
    {
        self.names.iter()
    }
}

impl UnconvertibleEntityTypeShapeError {
    /// The names of the entity types, in order.
    pub fn names(&self) -> NonEmptyIter<'_, InternalName>
        ensures { items_left result ≡ self.now.names }
    {
        self.names.iter()
    }
}

impl From<AllocError> for ToCedarSchemaSyntaxError {
    ghost use Rattle.std.specs.Prelude.{◌≡◌};
    ghost use Rattle.schema_print_errors.specs.declared.syntax_error.ToCedarSchemaSyntaxError.TheVariants.{Memory};

    ghost from_gives = { λ _ e. e ≡ Memory };

    fn from(_e: AllocError) -> ToCedarSchemaSyntaxError {
        ToCedarSchemaSyntaxError::Memory
    }
}

impl<T: Drop> From<AllocFailed<T>> for ToCedarSchemaSyntaxError {
    ghost use Rattle.std.specs.Prelude.{◌≡◌};
    ghost use Rattle.schema_print_errors.specs.declared.syntax_error.ToCedarSchemaSyntaxError.TheVariants.{Memory};

    ghost from_gives = { λ _ e. e ≡ Memory };

    fn from(_e: AllocFailed<T>) -> ToCedarSchemaSyntaxError {
        ToCedarSchemaSyntaxError::Memory
    }
}

impl CloneIn for NameCollisionsError {
    fn clone_in(&self, alloc: Global) -> Result<Self, AllocError> {
        Ok(NameCollisionsError {
            names: self.names.clone_in(alloc)?,
        })
    }
}

impl CloneIn for UnconvertibleEntityTypeShapeError {
    fn clone_in(&self, alloc: Global) -> Result<Self, AllocError> {
        Ok(UnconvertibleEntityTypeShapeError {
            names: self.names.clone_in(alloc)?,
        })
    }
}

impl CloneIn for ToCedarSchemaSyntaxError {
    fn clone_in(&self, alloc: Global) -> Result<Self, AllocError> {
        match self {
            ToCedarSchemaSyntaxError::NameCollisions(error) => Ok(
                ToCedarSchemaSyntaxError::NameCollisions(error.clone_in(alloc)?),
            ),
            ToCedarSchemaSyntaxError::UnconvertibleEntityTypeShape(error) => Ok(
                ToCedarSchemaSyntaxError::UnconvertibleEntityTypeShape(error.clone_in(alloc)?),
            ),
            ToCedarSchemaSyntaxError::Memory => Ok(ToCedarSchemaSyntaxError::Memory),
        }
    }
}
