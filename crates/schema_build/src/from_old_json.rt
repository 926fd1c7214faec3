ghost use Rattle.std.specs.Prelude.{◌≡◌, MatchResult};
ghost use Rattle.serde_json.specs.View.{view};
ghost use Rattle.schema_compat.specs.Causes.{OldText, OldValue, IsOldTextError, IsOldValueError};
ghost use Rattle.schema_build_checks.specs.Rows.{OrMemory};
ghost use Rattle.schema_build.specs.OldJson.{refusal, IsUnsaid, IsSchemaOfOldText, IsOldTextFault, IsSchemaOfOldValue};
ghost use Rattle.schema_build.specs.OldJson.{IsOldValueFault};

use crate::schema::ValidatorSchema;
use cedar_identifiers::RawName;
use cedar_names::ExtensionTable;
use schema_build_errors::SchemaError;
use schema_compat::{from_deprecated_json_str, from_deprecated_json_value};
use schema_json::Fragment;
use schema_json_errors::{JsonDeserializationError, JsonFault};
use serde_json::Value;
use std::alloc::Global;

// The refusal of JSON as one of a schema.
fn refusal(error: JsonDeserializationError) -> SchemaError
    ensures { result ≡ refusal error }
{
    match error.fault {
        JsonFault::Memory => SchemaError::Memory,
        _ => SchemaError::JsonDeserialization(error),
    }
}

// The fragment that a text says.
fn read_text(alloc: Global, json: &str) -> Result<Fragment<RawName>, SchemaError>
    ensures { MatchResult result (OldText json.now) (OrMemory (IsUnsaid (IsOldTextError json.now))) }
{
    match from_deprecated_json_str(alloc, json) {
        Ok(fragment) => Ok(fragment),
        Err(error) => Err(refusal(error)),
    }
}

// The fragment that a value says.
fn read_value(alloc: Global, json: Value) -> Result<Fragment<RawName>, SchemaError>
    ensures { MatchResult result (OldValue (view json)) (OrMemory (IsUnsaid (IsOldValueError (view json)))) }
{
    match from_deprecated_json_value(alloc, json) {
        Ok(fragment) => Ok(fragment),
        Err(error) => Err(refusal(error)),
    }
}

impl ValidatorSchema {
    /// The schema of a JSON text in the deprecated form under a table of extension types: it stands for what the text's
    /// fragment means. Refused are, in this order, a text that says no fragment, as `JsonDeserialization`, and one
    /// whose fragment has a fault, by that fault.
    pub fn from_deprecated_json_str(
        alloc: Global,
        json: &str,
        table: &ExtensionTable,
    ) -> Result<ValidatorSchema, SchemaError>
        ensures { MatchResult result (IsSchemaOfOldText json.now table.now) (IsOldTextFault json.now table.now) }
    {
        let fragment = read_text(alloc, json)?;
        ValidatorSchema::from_schema_frag(alloc, fragment, table)
    }

    /// The schema of a JSON value in the deprecated form under a table of extension types: it stands for what the
    /// value's fragment means. Refused are, in this order, a value that says no fragment, as `JsonDeserialization`, and
    /// one whose fragment has a fault, by that fault.
    pub fn from_deprecated_json_value(
        alloc: Global,
        json: Value,
        table: &ExtensionTable,
    ) -> Result<ValidatorSchema, SchemaError>
        ensures { MatchResult result (IsSchemaOfOldValue (view json) table.now)
            (IsOldValueFault (view json) table.now) }
    {
        let fragment = read_value(alloc, json)?;
        ValidatorSchema::from_schema_frag(alloc, fragment, table)
    }
}
