ghost use Rattle.std.specs.Prelude.{◌≡◌, [], OnOk};
ghost use Rattle.schema_syntax_tokens.specs.Laid.{laid, piece_text};
ghost use Rattle.cedar_identifiers.specs.Words.{is_id};
ghost use Rattle.laws_written.specs.Printed.{notes_pieces, value_pieces, name_piece};
ghost use Rattle.schema_print_text.specs.Adds.{Adds};
ghost use Rattle.schema_print_text.specs.PrintedTypes.{colon_pieces};

use crate::pushing::{push, push_spaces, push_string};
use cedar_data::{Text, is_word};
use cedar_identifiers::{Annotations, is_reserved};
use std::alloc::AllocError;

/// Adds each annotation on a line of its own, at this indentation: `@key`, with `("value")` where it has a value.
pub fn push_notes(text: &mut Text, base: usize, notes: &Annotations) -> Result<(), AllocError>
    ensures { OnOk result (Adds text.old text.new (laid (notes_pieces base notes.now.0))) }
{
    for (key, value) in notes.0.as_slice() {
        push_spaces(text, base)?;
        push(text, "@")?;
        push(text, key.as_str())?;
        push_value(text, value)?;
        push(text, "\n")?;
    }
    Ok(())
}

// Adds the value in parentheses, where there is one.
fn push_value(text: &mut Text, value: &Option<Text>) -> Result<(), AllocError>
    ensures { OnOk result (Adds text.old text.new (laid (value_pieces value.now))) }
{
    match value {
        None => Ok(()),
        Some(value) => {
            push(text, "(")?;
            push_string(text, value)?;
            push(text, ")")
        }
    }
}

/// Adds the name of an attribute: bare where it may be, and else as a string.
pub fn push_attribute_name(text: &mut Text, name: &Text) -> Result<(), AllocError>
    ensures { OnOk result (Adds text.old text.new (piece_text (name_piece name.now))) }
{
    if is_bare(name) {
        push(text, name.as_str())
    } else {
        push_string(text, name)
    }
}

/// Adds what stands between the name of an attribute and its type: `: `, or `?: ` where it is not required.
pub fn push_colon(text: &mut Text, required: bool) -> Result<(), AllocError>
    ensures { OnOk result (Adds text.old text.new (laid (colon_pieces required []))) }
{
    if required {
        push(text, ": ")
    } else {
        push(text, "?: ")
    }
}

// Whether the name may stand without quotes.
fn is_bare(name: &Text) -> bool
    ensures { result ≡ is_id name.now }
{
    let name = name.as_str();
    is_word(name) && !is_reserved(name)
}
