ghost use Rattle.std.specs.Prelude.{◌≡◌, Some, false, MatchResult, ℕ, List};
ghost use Rattle.serde_json.specs.Data.{Data};
ghost use Rattle.serde_json.specs.Read.{read};
ghost use Rattle.serde_json.specs.View.{view};
ghost use Rattle.serde_json.specs.Written.{has_float};
ghost use Rattle.schema_json_keys.specs.Plain.{IsPlainText};
ghost use Rattle.schema_json_io.specs.Causes.{IsValueCauseBy, IsTextCauseBy};
ghost use Rattle.schema_json_io.specs.Texts.{Holds};
ghost use Rattle.schema_compat_shapes.specs.OldParts.{IsOldRead};
ghost use Rattle.schema_compat_convert.specs.Converted.{IsConverted};
ghost use Rattle.schema_compat.specs.Causes.{OldText, OldValue, IsReadFault, IsConversionError, IsOldTextError};
ghost use Rattle.schema_compat.specs.Causes.{IsOldValueError};

use cedar_data::Text;
use cedar_identifiers::RawName;
use schema_compat_convert::convert_fragment;
use schema_compat_shapes::read_fragment;
use schema_compat_types::SchemaFragment;
use schema_json::Fragment;
use schema_json_errors::{JsonDeserializationError, JsonFault};
use schema_json_io::advice::advice_on;
use schema_json_io::floats::has_float;
use schema_json_io::read::with_advice;
use schema_json_io::shape_faults::of_shape;
use schema_json_keys::{look_through, plain_value};
use serde_json::Value;
use std::alloc::Global;

// The data that a value without a float is read as, or its fault.
fn read_whole(alloc: Global, value: &Value) -> Result<SchemaFragment, JsonFault>
    requires { has_float (view value.now) ≡ false }
    ensures { MatchResult result (λ s. (has_float (view value.now) ≡ false) × IsOldRead (view value.now) s)
        (IsValueCauseBy IsReadFault (view value.now)) }
{
    match read_fragment(alloc, value) {
        Ok(old) => Ok(old),
        Err(fault) => Err(of_shape(fault)),
    }
}

// The data that a value is read as, or its fault.
fn read_value(alloc: Global, value: &Value) -> Result<SchemaFragment, JsonFault>
    ensures { MatchResult result (λ s. (has_float (view value.now) ≡ false) × IsOldRead (view value.now) s)
        (IsValueCauseBy IsReadFault (view value.now)) }
{
    if has_float(value) {
        return Err(JsonFault::Float);
    }
    read_whole(alloc, value)
}

// The data that the value of a text is read as, or the fault. Mostly the text has no number, and floats are not looked
// for.
fn read_text(alloc: Global, text: &str, value: &Value) -> Result<SchemaFragment, JsonFault>
    requires { read text.now ≡ Some (view value.now) }
    ensures { MatchResult result (λ s. (d : Data) × Holds text.now d × IsOldRead d s)
        (IsTextCauseBy IsReadFault text.now) }
{
    let found = look_through(alloc, text)?;
    if let Some(key) = found.repeated {
        return Err(JsonFault::RepeatedKey(Text::from_string(key)));
    }
    if found.has_number && has_float(value) {
        return Err(JsonFault::Float);
    }
    read_whole(alloc, value)
}

// The fragment that the data becomes, or its fault, beside which nothing is advised.
fn converted(
    alloc: Global,
    old: SchemaFragment,
) -> Result<Fragment<RawName>, JsonDeserializationError>
    ensures { MatchResult result (IsConverted old) (IsConversionError old) }
{
    match convert_fragment(alloc, old) {
        Ok(fragment) => Ok(fragment),
        Err(fault) => Err(with_advice(of_shape(fault), None)),
    }
}

// The fragment of the value that a text without a repeated key and a number is, or the error.
fn read_plain(
    alloc: Global,
    text: &str,
    value: &Value,
) -> Result<Fragment<RawName>, JsonDeserializationError>
    requires { IsPlainText text.now (view value.now) }
    ensures { MatchResult result (OldText text.now) (IsOldTextError text.now) }
{
    match read_whole(alloc, value) {
        Ok(old) => converted(alloc, old),
        Err(fault) => Err(with_advice(fault, advice_on(text, Some(value)))),
    }
}

// The fragment of any text, or the error.
fn read_any(alloc: Global, json: &str) -> Result<Fragment<RawName>, JsonDeserializationError>
    ensures { MatchResult result (OldText json.now) (IsOldTextError json.now) }
{
    match Value::from_str(alloc, json) {
        Ok(value) => match read_text(alloc, json, &value) {
            Ok(old) => converted(alloc, old),
            Err(fault) => Err(with_advice(fault, advice_on(json, Some(&value)))),
        },
        Err(e) => {
            if e.is_memory() {
                return Err(with_advice(JsonFault::Memory, None));
            }
            Err(with_advice(JsonFault::NotJson, advice_on(json, None)))
        }
    }
}

/// The fragment that a JSON text says in the deprecated form. Refused are, in this order: a text that is no JSON, a key
/// that an object has twice, a number that is no whole number of 64 bits, the first fault of reading the value, and the
/// first fault of the data that is read. Mostly the text has neither a repeated key nor a number, and is read in one
/// pass.
pub fn from_deprecated_json_str(
    alloc: Global,
    json: &str,
) -> Result<Fragment<RawName>, JsonDeserializationError>
    ensures { MatchResult result (OldText json.now) (IsOldTextError json.now) }
{
    match plain_value(alloc, json) {
        Ok(Some(value)) => read_plain(alloc, json, &value),
        Ok(None) => read_any(alloc, json),
        Err(_) => Err(with_advice(JsonFault::Memory, None)),
    }
}

/// The fragment that a JSON value says in the deprecated form. Refused are a number that is no whole number of 64 bits,
/// and else the first fault of reading the value, or of the data that is read.
pub fn from_deprecated_json_value(
    alloc: Global,
    json: Value,
) -> Result<Fragment<RawName>, JsonDeserializationError>
    ensures { MatchResult result (OldValue (view json)) (IsOldValueError (view json)) }
{
    match read_value(alloc, &json) {
        Ok(old) => converted(alloc, old),
        Err(fault) => Err(with_advice(fault, None)),
    }
}

/// What is read from JSON in the deprecated form.
pub trait FragmentDeprecated: Drop {
    /// The text says it.
    ghost SaidByOldText: { List ℕ → Self → Type 0 };

    /// The value says it.
    ghost SaidByOldValue: { Data → Self → Type 0 };

    /// What the JSON text says in the deprecated form, or its first fault as `from_deprecated_json_str` orders them; or
    /// out of memory.
    fn from_deprecated_json_str(alloc: Global, json: &str) -> Result<Self, JsonDeserializationError>
        ensures { MatchResult result (SaidByOldText json.now) (IsOldTextError json.now) };

    /// What the JSON value says in the deprecated form, or its first fault; or out of memory.
    fn from_deprecated_json_value(
        alloc: Global,
        json: Value,
    ) -> Result<Self, JsonDeserializationError>
        ensures { MatchResult result (SaidByOldValue (view json)) (IsOldValueError (view json)) };
}

impl FragmentDeprecated for Fragment<RawName> {
    ghost SaidByOldText = { OldText };

    ghost SaidByOldValue = { OldValue };

    fn from_deprecated_json_str(
        alloc: Global,
        json: &str,
    ) -> Result<Self, JsonDeserializationError> {
        from_deprecated_json_str(alloc, json)
    }

    fn from_deprecated_json_value(
        alloc: Global,
        json: Value,
    ) -> Result<Self, JsonDeserializationError> {
        from_deprecated_json_value(alloc, json)
    }
}
