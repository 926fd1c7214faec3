ghost use Rattle.std.specs.Prelude.{◌≡◌};
ghost use Rattle.schema_syntax_errors.specs.FaultTexts.{parse_schema_error_text};
ghost use Rattle.schema_syntax_errors.specs.FaultHelps.{parse_schema_error_help};
ghost use Rattle.schema_syntax_errors.specs.FaultLabels.{parse_schema_error_labels};

use crate::parse_errors::ParseErrors;
use cedar_data::{CloneIn, Diagnostic, Label, Severity, Text, message};
use std::alloc::{AllocError, AllocFailed, Global};

/// Why a text was not read as a schema: its faults, or out of memory.
#[derive(PartialEq, Eq, Drop)]
pub enum ParseSchemaError {
    /// The text has these faults.
    Errors(ParseErrors),
    /// Out of memory.
    Memory,
}

impl Diagnostic for ParseSchemaError {
    ghost text = { parse_schema_error_text };

    ghost help = { parse_schema_error_help };

    ghost labels = { parse_schema_error_labels };

    fn text(&self, alloc: Global) -> Result<Text, AllocError> {
        match self {
            ParseSchemaError::Errors(errors) => errors.text(alloc),
            ParseSchemaError::Memory => message(alloc, "out of memory"),
        }
    }

    /// Advice on the source in which it came.
    fn help(&self, alloc: Global, source: &str) -> Result<Option<Text>, AllocError> {
        match self {
            ParseSchemaError::Errors(errors) => Diagnostic::help(errors, alloc, source),
            ParseSchemaError::Memory => Ok(None),
        }
    }

    fn labels(&self, alloc: Global) -> Result<Vec<Label>, AllocError> {
        match self {
            ParseSchemaError::Errors(errors) => errors.labels(alloc),
            ParseSchemaError::Memory => Ok(Vec::new(alloc)),
        }
    }

    fn severity(&self) -> Severity {
        Severity::Error
    }
}

impl From<AllocError> for ParseSchemaError {
    ghost use Rattle.schema_syntax_errors.specs.declared.parse_schema_error.ParseSchemaError.TheVariants.{Memory};

    ghost from_gives = { λ _ e. e ≡ Memory };

    fn from(_e: AllocError) -> ParseSchemaError {
        ParseSchemaError::Memory
    }
}

impl<T: Drop> From<AllocFailed<T>> for ParseSchemaError {
    ghost use Rattle.schema_syntax_errors.specs.declared.parse_schema_error.ParseSchemaError.TheVariants.{Memory};

    ghost from_gives = { λ _ e. e ≡ Memory };

    fn from(_e: AllocFailed<T>) -> ParseSchemaError {
        ParseSchemaError::Memory
    }
}

impl CloneIn for ParseSchemaError {
    fn clone_in(&self, alloc: Global) -> Result<Self, AllocError> {
        match self {
            ParseSchemaError::Errors(errors) => {
                Ok(ParseSchemaError::Errors(errors.clone_in(alloc)?))
            }
            ParseSchemaError::Memory => Ok(ParseSchemaError::Memory),
        }
    }
}
