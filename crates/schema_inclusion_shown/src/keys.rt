ghost use Rattle.std.specs.Prelude.{◌≡◌, true, codes, IfOk, OnOk};
ghost use Rattle.std.specs.Char.{is_ascii};
ghost use Rattle.std.specs.Fmt.{signed_decimal};
ghost use Rattle.std.specs.List.{list_all};
ghost use Rattle.std.specs.Str.{chars};
ghost use Rattle.cedar_data.specs.Rows.{separator_where};
ghost use Rattle.cedar_identifiers.specs.Names.{components_of, name_text};
ghost use Rattle.cedar_identifiers.specs.Words.{is_id};
ghost use Rattle.schema_syntax_tokens.specs.Quotes.{quoted};
ghost use Rattle.schema_inclusion_shown.specs.Grown.{Adds};
ghost use Rattle.schema_inclusion_shown.specs.ValueTexts.{entity_text, key_text};

use cedar_data::{Text, is_word};
use cedar_identifiers::{Name, NameText, is_reserved};
use itoa::Buffer;
use schema_syntax_tokens::push_quoted;
use std::alloc::{AllocError, Global};

/// Adds these ASCII characters.
pub(crate) fn push(text: &mut Text, more: &str) -> Result<(), AllocError>
    requires { list_all is_ascii more.now ≡ true }
    ensures { OnOk result (Adds text.old text.new more.now) }
{
    text.push_str(more)
}

/// Adds the text.
pub(crate) fn push_text(text: &mut Text, more: &Text) -> Result<(), AllocError>
    ensures { OnOk result (Adds text.old text.new more.now) }
{
    text.push_text(more)
}

/// Adds the value as a string.
pub(crate) fn push_string(text: &mut Text, value: &Text) -> Result<(), AllocError>
    ensures { OnOk result (Adds text.old text.new (chars (quoted value.now))) }
{
    push_quoted(text, value.as_str())
}

/// Adds the name: its components with `::` between two.
pub(crate) fn push_name(text: &mut Text, alloc: Global, name: &Name) -> Result<(), AllocError>
    ensures { OnOk result (Adds text.old text.new (name_text (components_of name.now.name))) }
{
    let name = name.text(alloc)?;
    push_text(text, &name)
}

/// Adds the text of an entity.
pub(crate) fn push_entity(
    text: &mut Text,
    alloc: Global,
    ty: &Name,
    id: &Text,
) -> Result<(), AllocError>
    ensures { OnOk result (Adds text.old text.new (entity_text (components_of ty.now.name, id.now))) }
{
    push_name(text, alloc, ty)?;
    push(text, "::")?;
    push_string(text, id)
}

/// The text of an entity: its type, `::` and its id as a string.
pub fn entity_text(alloc: Global, ty: &Name, id: &Text) -> Result<Text, AllocError>
    ensures { IfOk result (λ text. text ≡ entity_text (components_of ty.now.name, id.now)) }
{
    let mut text = Text::new(alloc);
    push_entity(&mut text, alloc, ty, id)?;
    Ok(text)
}

// Whether the name may stand without quotes.
fn is_bare(name: &Text) -> bool
    ensures { result ≡ is_id name.now }
{
    let name = name.as_str();
    is_word(name) && !is_reserved(name)
}

/// Adds the name of an attribute or a tag: bare where it may be, and else as a string.
pub(crate) fn push_key(text: &mut Text, name: &Text) -> Result<(), AllocError>
    ensures { OnOk result (Adds text.old text.new (key_text name.now)) }
{
    if is_bare(name) {
        push_text(text, name)
    } else {
        push_string(text, name)
    }
}

/// Adds `, ` where something stands before.
pub(crate) fn push_between(text: &mut Text, behind: bool) -> Result<(), AllocError>
    ensures { OnOk result (Adds text.old text.new (separator_where (codes ", ") behind)) }
{
    if behind { push(text, ", ") } else { Ok(()) }
}

/// Adds the digits of a number, behind `-` where it is below 0.
pub(crate) fn push_number(text: &mut Text, number: i64) -> Result<(), AllocError>
    ensures { OnOk result (Adds text.old text.new (signed_decimal number)) }
{
    let mut buffer = Buffer::new();
    text.push_str(buffer.format(number))
}
