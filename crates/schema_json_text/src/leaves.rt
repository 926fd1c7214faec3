// Commas, keys and lists of names.
ghost use Rattle.std.specs.Prelude.{◌<◌, ◌++◌, [], ◌∷◌, OnOk};
ghost use Rattle.json.specs.Print.{quoted};
ghost use Rattle.serde_json.specs.Written.{comma_if};
ghost use Rattle.schema_json_quotes.specs.Adds.{Adds};
ghost use Rattle.schema_json_text.specs.AddsValue.{AddsValue};
ghost use Rattle.schema_json_values.specs.TypeValues.{name_bytes};
ghost use Rattle.schema_json_values.specs.FragmentValues.{names_value};

use cedar_identifiers::NameText;
use schema_json_quotes::pushing::{push, push_char};
use schema_json_quotes::quotes::push_quoted;
use std::alloc::{AllocError, Global};

/// Adds a comma, where something stands before.
pub fn push_comma(out: &mut String, later: bool) -> Result<(), AllocError>
    ensures { OnOk result (Adds out.old out.new (comma_if later)) }
{
    if later {
        return push_char(out, ',');
    }
    Ok(())
}

/// Adds this text, behind a comma where something stands before.
pub fn push_later(out: &mut String, later: bool, text: &str) -> Result<(), AllocError>
    ensures { OnOk result (Adds out.old out.new (comma_if later ++ text.now)) }
{
    push_comma(out, later)?;
    push(out, text)
}

/// Adds a key and its colon, behind a comma where something stands before.
pub fn push_key(out: &mut String, later: bool, key: &str) -> Result<(), AllocError>
    ensures { OnOk result (Adds out.old out.new (comma_if later ++ (quoted key.now ++ 58 ∷ []))) }
{
    push_comma(out, later)?;
    push_quoted(out, key)?;
    push_char(out, ':')
}

/// Adds the JSON text of a name, which is a string.
pub fn push_name<N: NameText>(out: &mut String, alloc: Global, name: &N) -> Result<(), AllocError>
    ensures { OnOk result (Adds out.old out.new (quoted (name_bytes N.components name.now))) }
{
    let text = name.text(alloc)?;
    push_quoted(out, text.as_str())
}

/// Adds the JSON text of names: the list of their texts.
pub fn push_names<N: NameText>(
    out: &mut String,
    alloc: Global,
    names: &[N],
) -> Result<(), AllocError>
    ensures { OnOk result (AddsValue out.old out.new (names_value N.components names.now)) }
{
    push_char(out, '[')?;
    let mut later = false;
    for name in names {
        push_comma(out, later)?;
        push_name(out, alloc, name)?;
        later = true;
    }
    push_char(out, ']')
}
