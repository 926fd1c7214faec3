use cedar_data::{CloneIn, NonEmpty};
use cedar_identifiers::ConditionalName;
use schema_json::ActionEntityUID;
use std::alloc::{AllocError, AllocFailed, Global};

/// References to types that mean nothing, in the order of the walk.
#[derive(Drop)]
pub struct TypeNotDefinedError {
    pub undefined_types: NonEmpty<ConditionalName>,
}

/// References to actions that mean nothing, in the order of the walk.
#[derive(Drop)]
pub struct ActionNotDefinedError(pub NonEmpty<ActionEntityUID<ConditionalName>>);

/// Why a fragment cannot be resolved: a reference means nothing, or out of memory.
#[derive(Drop)]
pub enum ResolveError {
    /// References to types mean nothing.
    TypeNotDefined(TypeNotDefinedError),
    /// References to actions mean nothing.
    ActionNotDefined(ActionNotDefinedError),
    /// Out of memory.
    Memory,
}

impl From<AllocError> for ResolveError {
    ghost use Rattle.std.specs.Prelude.{◌≡◌};
    ghost use Rattle.schema_resolve_errors.specs.declared.resolve_error.ResolveError.TheVariants.{Memory};

    ghost from_gives = { λ _ e. e ≡ Memory };

    fn from(_e: AllocError) -> ResolveError {
        ResolveError::Memory
    }
}

impl<T: Drop> From<AllocFailed<T>> for ResolveError {
    ghost use Rattle.std.specs.Prelude.{◌≡◌};
    ghost use Rattle.schema_resolve_errors.specs.declared.resolve_error.ResolveError.TheVariants.{Memory};

    ghost from_gives = { λ _ e. e ≡ Memory };

    fn from(_e: AllocFailed<T>) -> ResolveError {
        ResolveError::Memory
    }
}

impl CloneIn for TypeNotDefinedError {
    fn clone_in(&self, alloc: Global) -> Result<Self, AllocError> {
        Ok(TypeNotDefinedError {
            undefined_types: self.undefined_types.clone_in(alloc)?,
        })
    }
}

impl CloneIn for ActionNotDefinedError {
    fn clone_in(&self, alloc: Global) -> Result<Self, AllocError> {
        Ok(ActionNotDefinedError(self.0.clone_in(alloc)?))
    }
}

impl CloneIn for ResolveError {
    fn clone_in(&self, alloc: Global) -> Result<Self, AllocError> {
        match self {
            ResolveError::TypeNotDefined(e) => Ok(ResolveError::TypeNotDefined(e.clone_in(alloc)?)),
            ResolveError::ActionNotDefined(e) => {
                Ok(ResolveError::ActionNotDefined(e.clone_in(alloc)?))
            }
            ResolveError::Memory => Ok(ResolveError::Memory),
        }
    }
}
