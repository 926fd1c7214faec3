ghost use Rattle.std.specs.Prelude.{◌≡◌};
ghost use Rattle.schema_syntax_errors.specs.FaultTexts.{annotation_error_text};
ghost use Rattle.schema_syntax_errors.specs.FaultLabels.{annotation_error_labels};

use crate::user_error::UserError;
use cedar_data::{CloneIn, Diagnostic, Label, Severity, Text, message};
use std::alloc::{AllocError, AllocFailed, Global};

/// Why annotations were not put on an item: a key stands twice, or out of memory.
#[derive(PartialEq, Eq, Drop)]
pub enum AnnotationError {
    /// A key stands twice.
    User(UserError),
    /// Out of memory.
    Memory,
}

impl Diagnostic for AnnotationError {
    ghost text = { annotation_error_text };

    ghost labels = { annotation_error_labels };

    fn text(&self, alloc: Global) -> Result<Text, AllocError> {
        match self {
            AnnotationError::User(fault) => fault.text(alloc),
            AnnotationError::Memory => message(alloc, "out of memory"),
        }
    }

    fn help(&self, _alloc: Global, _source: &str) -> Result<Option<Text>, AllocError> {
        Ok(None)
    }

    fn labels(&self, alloc: Global) -> Result<Vec<Label>, AllocError> {
        match self {
            AnnotationError::User(fault) => fault.labels(alloc),
            AnnotationError::Memory => Ok(Vec::new(alloc)),
        }
    }

    fn severity(&self) -> Severity {
        Severity::Error
    }
}

impl From<AllocError> for AnnotationError {
    ghost use Rattle.schema_syntax_errors.specs.declared.annotation_error.AnnotationError.TheVariants.{Memory};

    ghost from_gives = { λ _ e. e ≡ Memory };

    fn from(_e: AllocError) -> AnnotationError {
        AnnotationError::Memory
    }
}

impl<T: Drop> From<AllocFailed<T>> for AnnotationError {
    ghost use Rattle.schema_syntax_errors.specs.declared.annotation_error.AnnotationError.TheVariants.{Memory};

    ghost from_gives = { λ _ e. e ≡ Memory };

    fn from(_e: AllocFailed<T>) -> AnnotationError {
        AnnotationError::Memory
    }
}

impl CloneIn for AnnotationError {
    fn clone_in(&self, alloc: Global) -> Result<Self, AllocError> {
        match self {
            AnnotationError::User(fault) => Ok(AnnotationError::User(fault.clone_in(alloc)?)),
            AnnotationError::Memory => Ok(AnnotationError::Memory),
        }
    }
}
