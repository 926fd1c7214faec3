//! What stands where no token begins.
ghost use Rattle.std.specs.Prelude.{◌≡◌, ◌++◌, ◌<◌, [], ◌∷◌, true, None, Some, IfOk, OnOk, MatchOption};
ghost use Rattle.std.specs.Char.{is_ascii};
ghost use Rattle.std.specs.List.{list_all};
ghost use Rattle.std.specs.Str.{chars};
ghost use Rattle.schema_report.specs.Escapes.{on_screen};
ghost use Rattle.schema_report.specs.TokenHelps.{token_help, help_on, help_for, plain_help, named_help, ending};
ghost use Rattle.schema_report.specs.TokenHelps.{is_quote};
ghost use Rattle.schema_report.specs.TokenHelps.{begins_with_star, hex_digit, digit_at, high_digit, code_point};

use crate::escape::push_on_screen;
use crate::first_char::first_char;
use crate::pushing::{push, push_char};
use cedar_data::{Text, message};
use std::alloc::{AllocError, Global};

/// Advice on the character at this byte, where no token begins, and `None` where none stands there: at the end of the
/// text, past it or inside a character. It errs when out of memory.
pub fn token_help(alloc: Global, text: &str, byte: usize) -> Result<Option<Text>, AllocError>
    ensures { IfOk result (λ help. help ≡ token_help text.now byte) }
{
    if !text.is_char_boundary(byte) {
        return Ok(None);
    }
    help_on(alloc, &text[byte..])
}

// Advice on the character that the text begins with.
fn help_on(alloc: Global, text: &str) -> Result<Option<Text>, AllocError>
    ensures { IfOk result (λ help. help ≡ help_on (chars text.now)) }
{
    match first_char(text) {
        Some((first, rest)) => Ok(Some(help_for(alloc, first, rest)?)),
        None => Ok(None),
    }
}

// Advice on the character, given what follows it.
fn help_for(alloc: Global, first: char, rest: &str) -> Result<Text, AllocError>
    ensures { IfOk result (λ help. help ≡ help_for first (chars rest.now)) }
{
    match plain_help(first, rest) {
        Some(help) => message(alloc, help),
        None => named_help(alloc, first),
    }
}

// Advice that does not name the character.
fn plain_help(first: char, rest: &str) -> Option<&'static str>
    ensures { MatchOption result (plain_help first (chars rest.now) ≡ None) (λ help.
        (plain_help first (chars rest.now) ≡ Some help.now) × (list_all is_ascii help.now ≡ true)) }
{
    if first == '\u{feff}' {
        return Some("a byte order mark (U+FEFF) stands here: save the file without one");
    }
    if first == '\0' {
        return Some(
            "a NUL character (U+0000) stands here: the file may be UTF-16, so save it as UTF-8",
        );
    }
    if first == '"' {
        return Some("a string that does not end");
    }
    if first == '#' {
        return Some("a comment begins with `//`");
    }
    if first == '/' && begins_with_star(rest) {
        return Some("a comment begins with `//` and ends with its line");
    }
    if first.is_ascii_digit() {
        return Some("a word cannot begin with a digit");
    }
    None
}

// Whether an asterisk stands first.
fn begins_with_star(text: &str) -> bool
    ensures { result ≡ begins_with_star (chars text.now) }
{
    match first_char(text) {
        Some((first, _)) => first == '*',
        None => false,
    }
}

// Advice that names the character and its code point.
fn named_help(alloc: Global, c: char) -> Result<Text, AllocError>
    ensures { IfOk result (λ help. help ≡ named_help c) }
{
    let mut help = Text::new(alloc);
    push_named(&mut help, c)?;
    Ok(help)
}

fn push_named(out: &mut Text, c: char) -> Result<(), AllocError>
    ensures { OnOk result (out.new ≡ out.old ++ named_help c) }
{
    push(out, "`")?;
    push_on_screen(out, c)?;
    push(out, "` (U+")?;
    push_code_point(out, c as u32)?;
    push_ending(out, c)
}

// Adds what the character does not begin.
fn push_ending(out: &mut Text, c: char) -> Result<(), AllocError>
    ensures { OnOk result (out.new ≡ out.old ++ ending c) }
{
    if is_quote(c) {
        return push(out, ") begins no string: strings stand between `\"`");
    }
    push(out, ") begins no token")
}

// Whether the character is a quotation mark that Cedar does not have.
fn is_quote(c: char) -> bool
    ensures { result ≡ is_quote c }
{
    c == '\'' || c == '`' || c == '\u{ab}' || c == '\u{bb}' || ('\u{2018}' <= c && c <= '\u{201f}')
}

// Adds a code point in four to six hexadecimal digits.
fn push_code_point(out: &mut Text, code: u32) -> Result<(), AllocError>
    ensures { OnOk result (out.new ≡ out.old ++ code_point code) }
{
    push_high(out, code, 0x10_0000)?;
    push_high(out, code, 0x1_0000)?;
    push_digit(out, code, 0x1000)?;
    push_digit(out, code, 0x100)?;
    push_digit(out, code, 0x10)?;
    push_digit(out, code, 1)
}

// Adds the digit for this unit, where the number has it.
fn push_high(out: &mut Text, code: u32, unit: u32) -> Result<(), AllocError>
    requires { 0 < unit }
    ensures { OnOk result (out.new ≡ out.old ++ high_digit code unit) }
{
    if code < unit {
        return Ok(());
    }
    push_digit(out, code, unit)
}

// Adds the digit for this unit.
fn push_digit(out: &mut Text, code: u32, unit: u32) -> Result<(), AllocError>
    requires { 0 < unit }
    ensures { OnOk result (out.new ≡ out.old ++ digit_at code unit ∷ []) }
{
    push_char(out, hex_digit(code / unit % 16))
}

// The hexadecimal digit.
fn hex_digit(digit: u32) -> char
    requires { digit < 16 }
    ensures { result ≡ hex_digit digit }
{
    if digit < 10 {
        return (b'0' + digit as u8) as char;
    }
    (b'7' + digit as u8) as char
}
