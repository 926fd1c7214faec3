ghost use Rattle.std.specs.Prelude.{◌≡◌};
ghost use Rattle.schema_build_errors.specs.RecoveryTexts.{recovery_text, to_text_error_text};

use crate::captured::ReferenceCaptured;
use cedar_data::{CloneIn, Diagnostic, Label, Severity, Text, message};
use std::alloc::{AllocError, AllocFailed, Global};

/// Why no fragment stands for a schema: the first type of the walk that is none of a fragment; or out of memory.
#[derive(Drop)]
pub enum RecoveryError {
    /// A set of an unknown element.
    UnknownElement,
    /// An entity type that is joined of several.
    JoinedEntities,
    /// A type, a shape or a context that no fragment has.
    Unsupported,
    /// Out of memory.
    Memory,
}

impl Diagnostic for RecoveryError {
    ghost text = { recovery_text };

    fn text(&self, alloc: Global) -> Result<Text, AllocError> {
        let said = match self {
            RecoveryError::UnknownElement => "Set with unknown element type not supported",
            RecoveryError::JoinedEntities => "Entity LUB with multiple types not supported",
            RecoveryError::Unsupported => "Unsupported type for conversion",
            RecoveryError::Memory => "out of memory",
        };
        message(alloc, said)
    }

    fn help(&self, _alloc: Global, _source: &str) -> Result<Option<Text>, AllocError> {
        Ok(None)
    }

    fn labels(&self, alloc: Global) -> Result<Vec<Label>, AllocError> {
        Ok(Vec::new(alloc))
    }

    fn severity(&self) -> Severity {
        Severity::Error
    }
}

/// Why a schema has no text: no fragment stands for it, or its text would mean another; or out of memory.
#[derive(Drop)]
pub enum ToTextError {
    /// No fragment stands for the schema. It is never `RecoveryError::Memory`.
    Recovery(RecoveryError),
    /// A type would be read as another.
    Captured(ReferenceCaptured),
    /// Out of memory.
    Memory,
}

impl Diagnostic for ToTextError {
    ghost text = { to_text_error_text };

    fn text(&self, alloc: Global) -> Result<Text, AllocError> {
        match self {
            ToTextError::Recovery(error) => error.text(alloc),
            ToTextError::Captured(error) => error.text(alloc),
            ToTextError::Memory => message(alloc, "out of memory"),
        }
    }

    fn help(&self, _alloc: Global, _source: &str) -> Result<Option<Text>, AllocError> {
        Ok(None)
    }

    fn labels(&self, alloc: Global) -> Result<Vec<Label>, AllocError> {
        Ok(Vec::new(alloc))
    }

    fn severity(&self) -> Severity {
        Severity::Error
    }
}

impl From<AllocError> for RecoveryError {
    ghost use Rattle.std.specs.Prelude.{◌≡◌};
    ghost use Rattle.schema_build_errors.specs.declared.recovery_error.RecoveryError.TheVariants.{Memory};

    ghost from_gives = { λ _ e. e ≡ Memory };

    fn from(_e: AllocError) -> RecoveryError {
        RecoveryError::Memory
    }
}

impl<T: Drop> From<AllocFailed<T>> for RecoveryError {
    ghost use Rattle.std.specs.Prelude.{◌≡◌};
    ghost use Rattle.schema_build_errors.specs.declared.recovery_error.RecoveryError.TheVariants.{Memory};

    ghost from_gives = { λ _ e. e ≡ Memory };

    fn from(_e: AllocFailed<T>) -> RecoveryError {
        RecoveryError::Memory
    }
}

impl From<AllocError> for ToTextError {
    ghost use Rattle.std.specs.Prelude.{◌≡◌};
    ghost use Rattle.schema_build_errors.specs.declared.recovery_error.ToTextError.TheVariants.{Memory};

    ghost from_gives = { λ _ e. e ≡ Memory };

    fn from(_e: AllocError) -> ToTextError {
        ToTextError::Memory
    }
}

impl<T: Drop> From<AllocFailed<T>> for ToTextError {
    ghost use Rattle.std.specs.Prelude.{◌≡◌};
    ghost use Rattle.schema_build_errors.specs.declared.recovery_error.ToTextError.TheVariants.{Memory};

    ghost from_gives = { λ _ e. e ≡ Memory };

    fn from(_e: AllocFailed<T>) -> ToTextError {
        ToTextError::Memory
    }
}

impl CloneIn for RecoveryError {
    fn clone_in(&self, alloc: Global) -> Result<Self, AllocError> {
        match self {
            RecoveryError::UnknownElement => Ok(RecoveryError::UnknownElement),
            RecoveryError::JoinedEntities => Ok(RecoveryError::JoinedEntities),
            RecoveryError::Unsupported => Ok(RecoveryError::Unsupported),
            RecoveryError::Memory => Ok(RecoveryError::Memory),
        }
    }
}

impl CloneIn for ToTextError {
    fn clone_in(&self, alloc: Global) -> Result<Self, AllocError> {
        match self {
            ToTextError::Recovery(e) => Ok(ToTextError::Recovery(e.clone_in(alloc)?)),
            ToTextError::Captured(e) => Ok(ToTextError::Captured(e.clone_in(alloc)?)),
            ToTextError::Memory => Ok(ToTextError::Memory),
        }
    }
}
