ghost use Rattle.std.specs.Prelude.{◌≡◌};
ghost use Rattle.schema_layout_texts.specs.Answers.{layout_error_of};

use schema_syntax_errors::{ParseErrors, ParseSchemaError};
use std::alloc::AllocError;

/// Why a text was not laid out: its faults, or out of memory.
#[derive(PartialEq, Eq, Drop)]
pub enum LayoutError {
    /// The text is no schema, for these faults.
    Syntax(ParseErrors),
    /// Out of memory.
    Memory,
}

/// The error of a text that was not read as a schema.
pub(crate) fn layout_error_of(error: ParseSchemaError) -> LayoutError
    ensures { result ≡ layout_error_of error }
{
    match error {
        ParseSchemaError::Errors(errors) => LayoutError::Syntax(errors),
        ParseSchemaError::Memory => LayoutError::Memory,
    }
}

impl From<AllocError> for LayoutError {
    ghost use Rattle.schema_layout_texts.specs.declared.layout_error.LayoutError.TheVariants.{Memory};

    ghost from_gives = { λ _ e. e ≡ Memory };

    fn from(_e: AllocError) -> LayoutError {
        LayoutError::Memory
    }
}
