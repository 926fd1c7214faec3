ghost use Rattle.std.specs.Prelude.{◌≡◌, false, Some, MatchResult, ℕ, List};
ghost use Rattle.serde_json.specs.Data.{Data};
ghost use Rattle.serde_json.specs.Read.{read};
ghost use Rattle.serde_json.specs.View.{view};
ghost use Rattle.serde_json.specs.Written.{has_float};
ghost use Rattle.schema_json_keys.specs.Plain.{IsPlainText};
ghost use Rattle.schema_json_io.specs.Advice.{beside};
ghost use Rattle.schema_json_io.specs.Texts.{TextShape, ValueShape};
ghost use Rattle.schema_json_io.specs.Causes.{IsTextCause, IsValueCause, IsJsonTextError, IsValueError};

use crate::advice::advice_on;
use crate::floats::has_float;
use crate::shape_faults::of_shape;
use cedar_data::Text;
use cedar_identifiers::RawName;
use schema_json::Fragment;
use schema_json_errors::{JsonAdvice, JsonDeserializationError, JsonFault};
use schema_json_keys::{look_through, plain_value};
use schema_json_shapes::read_fragment;
use serde_json::Value;
use std::alloc::Global;

// The fragment of a value without a float, or its fault.
fn read_whole(alloc: Global, value: &Value) -> Result<Fragment<RawName>, JsonFault>
    requires { has_float (view value.now) ≡ false }
    ensures { MatchResult result (ValueShape (view value.now)) (IsValueCause (view value.now)) }
{
    match read_fragment(alloc, value) {
        Ok(fragment) => Ok(fragment),
        Err(fault) => Err(of_shape(fault)),
    }
}

// The fragment of a value, or its fault.
fn read_value(alloc: Global, value: &Value) -> Result<Fragment<RawName>, JsonFault>
    ensures { MatchResult result (ValueShape (view value.now)) (IsValueCause (view value.now)) }
{
    if has_float(value) {
        return Err(JsonFault::Float);
    }
    read_whole(alloc, value)
}

// The fragment of a value that a text reads as, or the fault. Mostly the text has no number, and floats are not looked
// for.
fn read_text(alloc: Global, text: &str, value: &Value) -> Result<Fragment<RawName>, JsonFault>
    requires { read text.now ≡ Some (view value.now) }
    ensures { MatchResult result (TextShape text.now) (IsTextCause text.now) }
{
    let found = look_through(alloc, text)?;
    if let Some(key) = found.repeated {
        return Err(JsonFault::RepeatedKey(Text::from_string(key)));
    }
    if found.has_number && has_float(value) {
        return Err(JsonFault::Float);
    }
    read_whole(alloc, value)
}

/// The error of this fault, with this advice where it may stand beside it.
pub fn with_advice(fault: JsonFault, advice: Option<JsonAdvice>) -> JsonDeserializationError
    ensures fault { result.fault ≡ fault }
    ensures advice { result.advice ≡ beside fault advice }
{
    let advice = match fault {
        JsonFault::Memory => None,
        _ => advice,
    };
    JsonDeserializationError { fault, advice }
}

// The fragment of the value that a text without a repeated key and a number is, or the error.
fn read_plain(
    alloc: Global,
    text: &str,
    value: &Value,
) -> Result<Fragment<RawName>, JsonDeserializationError>
    requires { IsPlainText text.now (view value.now) }
    ensures { MatchResult result (TextShape text.now) (IsJsonTextError text.now) }
{
    match read_whole(alloc, value) {
        Ok(fragment) => Ok(fragment),
        Err(fault) => Err(with_advice(fault, advice_on(text, Some(value)))),
    }
}

// The fragment of any text, or the error.
fn read_any(alloc: Global, json: &str) -> Result<Fragment<RawName>, JsonDeserializationError>
    ensures { MatchResult result (TextShape json.now) (IsJsonTextError json.now) }
{
    match Value::from_str(alloc, json) {
        Ok(value) => match read_text(alloc, json, &value) {
            Ok(fragment) => Ok(fragment),
            Err(fault) => Err(with_advice(fault, advice_on(json, Some(&value)))),
        },
        Err(e) => {
            if e.is_memory() {
                return Err(with_advice(JsonFault::Memory, None));
            }
            Err(with_advice(JsonFault::NotJson, advice_on(json, None)))
        }
    }
}

/// The fragment that a JSON text says. Refused are, in this order: a text that is no JSON, a key that an object has
/// twice, a number that is no whole number of 64 bits, and the first fault of the value. Mostly the text has neither a
/// repeated key nor a number, and is read in one pass.
pub fn from_json_str(
    alloc: Global,
    json: &str,
) -> Result<Fragment<RawName>, JsonDeserializationError>
    ensures { MatchResult result (TextShape json.now) (IsJsonTextError json.now) }
{
    match plain_value(alloc, json) {
        Ok(Some(value)) => read_plain(alloc, json, &value),
        Ok(None) => read_any(alloc, json),
        Err(_) => Err(with_advice(JsonFault::Memory, None)),
    }
}

/// The fragment that a JSON value says. Refused are a number that is no whole number of 64 bits, and else the first
/// fault of the value.
pub fn from_json_value(
    alloc: Global,
    json: Value,
) -> Result<Fragment<RawName>, JsonDeserializationError>
    ensures { MatchResult result (ValueShape (view json)) (IsValueError (view json)) }
{
    match read_value(alloc, &json) {
        Ok(fragment) => Ok(fragment),
        Err(fault) => Err(with_advice(fault, None)),
    }
}

/// What is read from JSON.
pub trait FragmentJson: Drop {
    /// The text says it.
    ghost SaidByText: { List ℕ → Self → Type 0 };

    /// The value says it.
    ghost SaidByValue: { Data → Self → Type 0 };

    /// What the JSON text says, or its first fault as `from_json_str` orders them; or out of memory.
    fn from_json_str(alloc: Global, json: &str) -> Result<Self, JsonDeserializationError>
        ensures { MatchResult result (SaidByText json.now) (IsJsonTextError json.now) };

    /// What the JSON value says, or its first fault; or out of memory.
    fn from_json_value(alloc: Global, json: Value) -> Result<Self, JsonDeserializationError>
        ensures { MatchResult result (SaidByValue (view json)) (IsValueError (view json)) };
}

impl FragmentJson for Fragment<RawName> {
    ghost SaidByText = { TextShape };

    ghost SaidByValue = { ValueShape };

    fn from_json_str(alloc: Global, json: &str) -> Result<Self, JsonDeserializationError> {
        from_json_str(alloc, json)
    }

    fn from_json_value(alloc: Global, json: Value) -> Result<Self, JsonDeserializationError> {
        from_json_value(alloc, json)
    }
}
