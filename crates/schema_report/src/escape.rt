//! How characters are written where they may not stand as they are.
ghost use Rattle.std.specs.Prelude.{◌≡◌, ◌++◌, ◌<◌, OnOk};
ghost use Rattle.std.specs.List.{flat_map};
ghost use Rattle.std.specs.Str.{chars};
ghost use Rattle.schema_report.specs.Escapes.{is_unseen, visible, on_screen, in_message, in_property, written_for};

use crate::first_char::first_char;
use crate::pushing::{push, push_char};
use cedar_data::Text;
use std::alloc::AllocError;

/// Where a text is written.
#[derive(Clone, Copy)]
pub enum Escape {
    /// On a terminal: a tab as four spaces, and a sign for a character that would move the cursor or turn the text.
    Screen,
    /// In the message of a GitHub workflow command.
    Message,
    /// In a property of a GitHub workflow command.
    Property,
}

/// Adds the text, written for this place. When out of memory, a front of it may have been added.
pub fn push_escaped(out: &mut Text, escape: Escape, text: &str) -> Result<(), AllocError>
    ensures { OnOk result (out.new ≡ out.old ++ flat_map (written_for escape) (chars text.now)) }
{
    let mut rest = text;
    while let Some((c, after)) = first_char(rest) {
        push_one(out, escape, c)?;
        rest = after;
    }
    Ok(())
}

/// Adds the text, written for this place. When out of memory, a front of it may have been added.
pub fn push_text(out: &mut Text, escape: Escape, text: &Text) -> Result<(), AllocError>
    ensures { OnOk result (out.new ≡ out.old ++ flat_map (written_for escape) text.now) }
{
    push_escaped(out, escape, text.as_str())
}

// Adds the character, written for this place.
fn push_one(out: &mut Text, escape: Escape, c: char) -> Result<(), AllocError>
    ensures { OnOk result (out.new ≡ out.old ++ written_for escape c) }
{
    match escape {
        Escape::Screen => push_on_screen(out, c),
        Escape::Message => push_in_message(out, c),
        Escape::Property => push_in_property(out, c),
    }
}

pub(crate) fn push_on_screen(out: &mut Text, c: char) -> Result<(), AllocError>
    ensures { OnOk result (out.new ≡ out.old ++ on_screen c) }
{
    if c == '\t' {
        return push(out, "    ");
    }
    push_char(out, visible(c))
}

// The character, or a sign for one that a terminal does not show.
fn visible(c: char) -> char
    ensures { result ≡ visible c }
{
    if c < ' ' {
        return char::from_u32(0x2400 + c as u32).unwrap_or(c);
    }
    if c == '\x7f' {
        return '\u{2421}';
    }
    if is_hidden(c) { '\u{fffd}' } else { c }
}

// Whether the character is a control that has no picture, or turns the direction of the text.
fn is_hidden(c: char) -> bool
    ensures { result ≡ is_unseen c }
{
    ('\u{80}' <= c && c <= '\u{9f}')
        || ('\u{202a}' <= c && c <= '\u{202e}')
        || ('\u{2066}' <= c && c <= '\u{2069}')
}

fn push_in_message(out: &mut Text, c: char) -> Result<(), AllocError>
    ensures { OnOk result (out.new ≡ out.old ++ in_message c) }
{
    if c == '%' {
        return push(out, "%25");
    }
    if c == '\r' {
        return push(out, "%0D");
    }
    if c == '\n' {
        return push(out, "%0A");
    }
    push_char(out, c)
}

fn push_in_property(out: &mut Text, c: char) -> Result<(), AllocError>
    ensures { OnOk result (out.new ≡ out.old ++ in_property c) }
{
    if c == ':' {
        return push(out, "%3A");
    }
    if c == ',' {
        return push(out, "%2C");
    }
    push_in_message(out, c)
}
