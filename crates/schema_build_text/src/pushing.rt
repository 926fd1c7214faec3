ghost use Rattle.std.specs.Prelude.{◌≡◌, ◌+◌, ◌++◌, IfOk, OnOk, if◌then◌else◌, [], codes};
ghost use Rattle.cedar_names.specs.CanonicalText.{spaces, attribute_name};
ghost use Rattle.cedar_identifiers.specs.Words.{is_id};
ghost use Rattle.std.specs.List.{list_all};
ghost use Rattle.std.specs.Str.{chars};
ghost use Rattle.cedar_data.specs.Rows.{separator_where};
ghost use Rattle.schema_syntax_tokens.specs.Quotes.{is_escaped, quoted};
ghost use Rattle.schema_build_text.specs.Strings.{is_plain};
ghost use Rattle.schema_build_text.specs.Adds.{Adds};

use cedar_data::{Text, is_word};
use cedar_identifiers::is_reserved;
use schema_syntax_tokens::push_quoted;
use std::alloc::AllocError;

/// Adds these characters.
pub fn push(text: &mut String, more: &str) -> Result<(), AllocError>
    ensures { OnOk result (Adds text.old text.new more.now) }
{
    text.push_str(more)
}

/// Adds the separator, where something stands before.
pub fn push_between(text: &mut String, behind: bool, separator: &str) -> Result<(), AllocError>
    ensures { OnOk result (Adds text.old text.new (separator_where separator.now behind)) }
{
    if behind {
        push(text, separator)
    } else {
        Ok(())
    }
}

// Whether the byte is escaped in a string.
fn is_escaped(byte: u8) -> bool
    ensures { result ≡ is_escaped byte }
{
    (byte < 0x20 || byte == 0x7f) || ((byte == b'"' || byte == b'\'') || byte == b'\\')
}

// Whether the byte is a character that stands in a string as it is.
fn is_plain(byte: u8) -> bool
    ensures { result ≡ is_plain byte }
{
    byte < 0x80 && !is_escaped(byte)
}

// Whether each of the bytes is one.
fn are_plain(bytes: &[u8]) -> bool
    ensures { result ≡ list_all is_plain bytes.now }
{
    bytes.iter().all(|byte| is_plain(*byte))
}

// Adds the characters separator_where quotes.
fn push_between_quotes(text: &mut String, value: &str) -> Result<(), AllocError>
    ensures { OnOk result (Adds text.old text.new (codes "\"" ++ (value.now ++ codes "\""))) }
{
    push(text, "\"")?;
    push(text, value)?;
    push(text, "\"")
}

// Adds the characters as a string of which some are escaped.
fn push_escaped(text: &mut String, value: &str) -> Result<(), AllocError>
    ensures { OnOk result (Adds text.old text.new (quoted (chars value.now))) }
{
    let mut quoted = Text::new(*text.allocator());
    push_quoted(&mut quoted, value)?;
    push(text, quoted.as_str())
}

/// Adds the value as a string. Mostly nothing in it is escaped, and then it is added as it stands.
pub fn push_string(text: &mut String, value: &Text) -> Result<(), AllocError>
    ensures { OnOk result (Adds text.old text.new (quoted value.now)) }
{
    let value = value.as_str();
    if are_plain(value.as_bytes()) {
        push_between_quotes(text, value)
    } else {
        push_escaped(text, value)
    }
}

/// Adds so many spaces.
pub fn push_spaces(text: &mut String, count: usize) -> Result<(), AllocError>
    ensures { OnOk result (Adds text.old text.new (spaces count)) }
{
    let mut left = count;
    while left > 3 {
        push(text, "    ")?;
        left -= 4;
    }
    match left {
        0 => Ok(()),
        1 => push(text, " "),
        2 => push(text, "  "),
        _ => push(text, "   "),
    }
}

/// The indentation of the members of what stands at this one. One that does not fit is refused: so many spaces fit no
/// memory.
pub fn deeper(base: usize) -> Result<usize, AllocError>
    ensures { IfOk result (λ inner. inner ≡ base + 2) }
{
    match base.checked_add(2) {
        Some(inner) => Ok(inner),
        None => Err(AllocError),
    }
}

/// Adds the name of an attribute: bare where it may be, and else as a string.
pub fn push_attribute_name(text: &mut String, name: &Text) -> Result<(), AllocError>
    ensures { OnOk result (Adds text.old text.new (attribute_name name.now)) }
{
    if is_bare(name) {
        push(text, name.as_str())
    } else {
        push_string(text, name)
    }
}

/// Adds `?` behind the name of an attribute that is not required.
pub fn push_mark(text: &mut String, required: bool) -> Result<(), AllocError>
    ensures { OnOk result (Adds text.old text.new (if required then [] else codes "?")) }
{
    if required { Ok(()) } else { push(text, "?") }
}

// Whether the name may stand without quotes.
fn is_bare(name: &Text) -> bool
    ensures { result ≡ is_id name.now }
{
    let name = name.as_str();
    is_word(name) && !is_reserved(name)
}
