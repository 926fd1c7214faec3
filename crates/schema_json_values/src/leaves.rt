// Texts, flags and lists of texts.
ghost use Rattle.std.specs.Prelude.{◌≡◌, IfOk, OnOk};
ghost use Rattle.serde_json.specs.Data.{string};
ghost use Rattle.serde_json.specs.View.{view, members_view};
ghost use Rattle.schema_json_values.specs.TypeValues.{with_flag, with_word, name_bytes};
ghost use Rattle.schema_json_values.specs.FragmentValues.{names_value};

use cedar_identifiers::NameText;
use serde_json::{Map, Value, put};
use std::alloc::{AllocError, Global};

/// The members of a JSON object.
pub type Members = Map<String, Value>;

/// The JSON value of a text.
pub fn text_value(alloc: Global, text: &str) -> Result<Value, AllocError>
    ensures { IfOk result (λ v. view v ≡ string text.now) }
{
    Ok(Value::String(String::from_str(alloc, text)?))
}

/// The JSON value of a name, which is its text.
pub fn name_value<N: NameText>(alloc: Global, name: &N) -> Result<Value, AllocError>
    ensures { IfOk result (λ v. view v ≡ string (name_bytes N.components name.now)) }
{
    let text = name.text(alloc)?;
    text_value(alloc, text.as_str())
}

/// The object of a type of this word.
pub fn with_word(alloc: Global, word: &str) -> Result<Members, AllocError>
    ensures { IfOk result (λ m. members_view m.entries ≡ with_word word.now) }
{
    let mut members = Map::new(alloc);
    let word = text_value(alloc, word)?;
    put(&mut members, alloc, "type", word)?;
    Ok(members)
}

/// Adds the flag, where it is asked for.
pub fn put_flag(
    members: &mut Members,
    alloc: Global,
    asked: bool,
    key: &str,
    flag: bool,
) -> Result<(), AllocError>
    ensures { OnOk result (members_view members.new.entries
        ≡ with_flag asked key.now flag (members_view members.old.entries)) }
{
    if asked {
        put(members, alloc, key, Value::Bool(flag))?;
    }
    Ok(())
}

/// The JSON value of names: the list of their texts.
pub fn names_value<N: NameText>(alloc: Global, names: &[N]) -> Result<Value, AllocError>
    ensures { IfOk result (λ v. view v ≡ names_value N.components names.now) }
{
    let mut items = Vec::new(alloc);
    for name in names {
        items.push(name_value(alloc, name)?)?;
    }
    Ok(Value::Array(items))
}
