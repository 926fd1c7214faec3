ghost use Rattle.std.specs.Prelude.{◌≡◌, option_map};
ghost use Rattle.serde_json.specs.Read.{read};
ghost use Rattle.serde_json.specs.View.{view};
ghost use Rattle.schema_json_io.specs.Advice.{is_no_object_text, is_bare_namespace, advice_on};

use schema_json_errors::JsonAdvice;
use schema_json_shapes::fields::at;
use serde_json::Value;

/// The advice beside a fault of the text: it may be in the Cedar format where its first character that is not blank is
/// not `{`, and else lack a namespace where it is an object with a field of one.
pub fn advice_on(text: &str, value: Option<&Value>) -> Option<JsonAdvice>
    requires { option_map (λ v. view v.now) value ≡ read text.now }
    ensures { result ≡ advice_on text.now }
{
    if is_no_object_text(text) {
        return Some(JsonAdvice::CedarFormat);
    }
    match value {
        Some(value) => {
            if is_bare_namespace(value) {
                Some(JsonAdvice::MissingNamespace)
            } else {
                None
            }
        }
        None => None,
    }
}

// Whether the first character that is not blank is not `{`.
fn is_no_object_text(text: &str) -> bool
    ensures { result ≡ is_no_object_text text.now }
{
    match text.trim_start().as_bytes().first() {
        Some(byte) => *byte != b'{',
        None => false,
    }
}

// Whether it is an object with a field of a namespace.
fn is_bare_namespace(value: &Value) -> bool
    ensures { result ≡ is_bare_namespace (view value.now) }
{
    match value {
        Value::Object(members) => {
            at(members, "entityTypes").is_some()
                || at(members, "actions").is_some()
                || at(members, "commonTypes").is_some()
        }
        _ => false,
    }
}
