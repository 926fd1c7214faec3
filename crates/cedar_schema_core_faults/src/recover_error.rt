ghost use Rattle.cedar_schema_core_faults.specs.RecoverTexts.{recover_text, recover_help, recover_labels};

use cedar_data::{CloneIn, Diagnostic, Label, Severity, Text, message};
use schema_build_errors::{ReferenceCaptured, SchemaError};
use schema_convert_errors::CedarSchemaParseErrors;
use std::alloc::{AllocError, Global};

/// Why nothing was recovered, in the order in which the causes count.
#[derive(Drop)]
pub enum RecoverError {
    /// The text is no schema: a fault of its syntax or of a declaration, or all faults of its translation.
    Parse(CedarSchemaParseErrors),
    /// Its declarations make no schema: the first fault that holds.
    Schema(SchemaError),
    /// Its canonical text would be read otherwise: the first declaration that uses a type which would be captured.
    Captured(ReferenceCaptured),
    /// Out of memory.
    Memory,
}

impl Diagnostic for RecoverError {
    ghost text = { recover_text };

    ghost help = { recover_help };

    ghost labels = { recover_labels };

    fn text(&self, alloc: Global) -> Result<Text, AllocError> {
        match self {
            RecoverError::Parse(errors) => errors.text(alloc),
            RecoverError::Schema(error) => error.text(alloc),
            RecoverError::Captured(captured) => captured.text(alloc),
            RecoverError::Memory => message(alloc, "out of memory"),
        }
    }

    fn help(&self, alloc: Global, source: &str) -> Result<Option<Text>, AllocError> {
        match self {
            RecoverError::Parse(errors) => errors.help(alloc, source),
            RecoverError::Schema(error) => error.help(alloc, source),
            RecoverError::Captured(captured) => captured.help(alloc, source),
            RecoverError::Memory => Ok(None),
        }
    }

    fn labels(&self, alloc: Global) -> Result<Vec<Label>, AllocError> {
        match self {
            RecoverError::Parse(errors) => errors.labels(alloc),
            RecoverError::Schema(error) => error.labels(alloc),
            RecoverError::Captured(captured) => captured.labels(alloc),
            RecoverError::Memory => Ok(Vec::new(alloc)),
        }
    }

    fn severity(&self) -> Severity {
        Severity::Error
    }
}

impl CloneIn for RecoverError {
    fn clone_in(&self, alloc: Global) -> Result<Self, AllocError> {
        match self {
            RecoverError::Parse(errors) => Ok(RecoverError::Parse(errors.clone_in(alloc)?)),
            RecoverError::Schema(error) => Ok(RecoverError::Schema(error.clone_in(alloc)?)),
            RecoverError::Captured(captured) => {
                Ok(RecoverError::Captured(captured.clone_in(alloc)?))
            }
            RecoverError::Memory => Ok(RecoverError::Memory),
        }
    }
}
