ghost use Rattle.std.specs.Prelude.{MatchResult};
ghost use Rattle.schema_same.specs.Same.{BuildsText, IsTextFault, IsSameAnswer, IsSameRefusal};

use crate::errors::SameError;
use cedar_names::ExtensionTable;
use cedar_schema_core_faults::RecoverError;
use schema_build::{CedarSchemaError, ValidatorSchema};
use schema_build_text::laws::meanings_are_read_back;
use std::alloc::Global;

// The schema of a text, or its faults; `Memory` when out of memory.
fn built(alloc: Global, text: &str, table: &ExtensionTable) -> Result<ValidatorSchema, RecoverError>
    ensures { MatchResult result (BuildsText text.now table.now) (IsTextFault text.now table.now) }
{
    match ValidatorSchema::from_cedarschema_str(alloc, text, table) {
        Ok((schema, _warnings)) => Ok(schema),
        Err(CedarSchemaError::Parsing(error)) => Err(RecoverError::Parse(error.errs)),
        Err(CedarSchemaError::Schema(error)) => Err(RecoverError::Schema(error)),
        Err(CedarSchemaError::Memory) => Err(RecoverError::Memory),
    }
}

/// Whether two schema texts have one meaning. The table says which extension types there are. Comments, annotations,
/// common types, the order of declarations and the way names are written do not count. Refused is the first text where
/// it is no schema, or else the second one.
pub fn same_meaning(
    alloc: Global,
    first: &str,
    second: &str,
    table: &ExtensionTable,
) -> Result<bool, SameError>
    ensures { MatchResult result (IsSameAnswer first.now second.now table.now)
        (IsSameRefusal first.now second.now table.now) }
{
    meanings_are_read_back();
    let one = match built(alloc, first, table) {
        Ok(schema) => schema,
        Err(RecoverError::Memory) => return Err(SameError::Memory),
        Err(fault) => return Err(SameError::First(fault)),
    };
    let other = match built(alloc, second, table) {
        Ok(schema) => schema,
        Err(RecoverError::Memory) => return Err(SameError::Memory),
        Err(fault) => return Err(SameError::Second(fault)),
    };
    Ok(ValidatorSchema::meaning_eq(&one, &other))
}
