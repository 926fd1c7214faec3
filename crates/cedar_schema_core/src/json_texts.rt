//! Schemas in JSON: written of a schema text, and recovered from.
ghost use Rattle.std.specs.Prelude.{◌≡◌, ◌≢◌, ◌↔◌, true, IfOk, IfErr, MatchResult};
ghost use Rattle.std.specs.Str.{encode_utf8_all};
ghost use Rattle.serde_json.specs.Written.{compact_text};
ghost use Rattle.cedar_names.specs.Meaning.{SchemaMeaning};
ghost use Rattle.laws_build.specs.Closure.HalfFilled.{IsHalfFilled};
ghost use Rattle.cedar_schema_core.specs.Json.{written_value, SaysIn, IsJsonOfText, JsonMeaning, IsErrorIn};
ghost use Rattle.cedar_schema_core.specs.Json.{IsValidJson, IsRecoveredJson, IsRefusalOfJson};
ghost use Rattle.cedar_schema_core.specs.Meanings.{TextMeaning};
ghost use Rattle.cedar_schema_core.specs.Steps.{IsUnparsed, IsUnread};

use crate::laws::{one_json_reading, texts_of_json_mean_the_same};
use crate::recover::{Recovered, build, print, translate};
use cedar_data::Text;
use cedar_identifiers::RawName;
use cedar_names::ExtensionTable;
use cedar_schema_core_faults::RecoverError;
use schema_build::SchemaError;
use schema_compat::from_deprecated_json_str;
use schema_json::Fragment;
use schema_json_errors::JsonDeserializationError;
use schema_json_io::{JsonFault, from_json_str};
use schema_json_text::fragment_text;
use std::alloc::{AllocError, Global};

/// The forms of JSON that a schema may stand in.
#[derive(Clone, Copy, Drop, PartialEq, Eq)]
pub enum JsonForm {
    /// The form of today, in which each part has its place and nothing else stands.
    Current,
    /// The form before: types may have further fields, and one that does not read refers to a common type.
    Deprecated,
}

// The compact JSON of a fragment.
fn json_of(alloc: Global, fragment: &Fragment<RawName>) -> Result<Text, AllocError>
    ensures { IfOk result (λ json. encode_utf8_all json ≡ compact_text (written_value fragment.now)) }
{
    fragment_text(alloc, fragment)
}

/// The compact JSON of the fragment that a schema text is translated to. Refused is a text that has no fragment.
pub fn to_json_text(alloc: Global, text: &str, table: &ExtensionTable) -> Result<Text, RecoverError>
    ensures written { IfOk result (IsJsonOfText text.now table.now) }
    ensures refused { IfErr result (IsUnparsed text.now) }
{
    let (fragment, _warnings) = translate(alloc, text, table)?;
    match json_of(alloc, &fragment) {
        Ok(json) => Ok(json),
        Err(_) => Err(RecoverError::Memory),
    }
}

// Whether the fault is that of being out of memory.
fn is_memory(fault: &JsonFault) -> bool
    ensures { result ≡ true ↔ fault.now ≡ JsonFault.Memory }
{
    matches!(fault, JsonFault::Memory)
}

// The fragment that a JSON text says in its form.
fn said(
    alloc: Global,
    text: &str,
    form: JsonForm,
) -> Result<Fragment<RawName>, JsonDeserializationError>
    ensures { MatchResult result (SaysIn form text.now) (IsErrorIn form text.now) }
{
    match form {
        JsonForm::Current => from_json_str(alloc, text),
        JsonForm::Deprecated => from_deprecated_json_str(alloc, text),
    }
}

// The fragment that a JSON text says in its form, or the refusal.
fn read(alloc: Global, text: &str, form: JsonForm) -> Result<Fragment<RawName>, RecoverError>
    ensures said { IfOk result (SaysIn form text.now) }
    ensures refused { IfErr result (IsUnread form text.now) }
{
    match said(alloc, text, form) {
        Ok(fragment) => Ok(fragment),
        Err(error) => {
            if is_memory(&error.fault) {
                return Err(RecoverError::Memory);
            }
            Err(RecoverError::Schema(SchemaError::JsonDeserialization(error)))
        }
    }
}

/// The canonical text of what a JSON text means under a table of extension types, with its counts. It has no warnings.
/// It means what the JSON text means exactly where no action of this meaning is half filled. Refused are a text that
/// says no fragment, one whose fragment has a build fault, and one whose canonical text would be read otherwise.
pub fn recover_json(
    alloc: Global,
    text: &str,
    table: &ExtensionTable,
    form: JsonForm,
) -> Result<Recovered, RecoverError>
    ensures recovered { IfOk result (IsRecoveredJson form text.now table.now) }
    ensures keeps { IfOk result (λ recovered. (m : SchemaMeaning) → JsonMeaning form text.now table.now m
        → TextMeaning (encode_utf8_all recovered.text) table.now m ↔ (¬ IsHalfFilled m)) }
    ensures refused { IfErr result (IsRefusalOfJson form text.now table.now) }
    ensures invalid { IfErr result (λ fault. fault ≢ RecoverError.Memory → IsValidJson form text.now table.now → ⊥) }
{
    one_json_reading();
    texts_of_json_mean_the_same();
    let fragment = read(alloc, text, form)?;
    let schema = build(alloc, fragment, table)?;
    let text = print(alloc, &schema)?;
    Ok(Recovered {
        text,
        warnings: Vec::new(alloc),
        entity_types: schema.entity_types().len(),
        actions: schema.actions().len(),
    })
}
