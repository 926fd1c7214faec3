ghost use Rattle.std.specs.Prelude.{◌≡◌};
ghost use Rattle.json.specs.Value.{value_view, items_view, members_view};
ghost use Rattle.schema_json_keys.specs.Numbers.{has_number, items_have_number, members_have_number};

use json::Value;

/// Whether some value in it is a number.
#[cycle(number)]
pub fn has_number(value: &Value<'_>) -> bool
    ensures { result ≡ has_number (value_view value.now) }
{
    match value {
        Value::Number(_) => true,
        Value::Array(items) => items_have_number(items),
        Value::Object(members) => members_have_number(members),
        _ => false,
    }
}

#[cycle(number)]
fn items_have_number(items: &Vec<Value<'_>>) -> bool
    ensures { result ≡ items_have_number (items_view items.now.items) }
{
    for item in items {
        if has_number(item) {
            return true;
        }
    }
    false
}

#[cycle(number)]
fn members_have_number(members: &Vec<(&str, Value<'_>)>) -> bool
    ensures { result ≡ members_have_number (members_view members.now.items) }
{
    for member in members {
        if has_number(&member.1) {
            return true;
        }
    }
    false
}
