ghost use Rattle.std.specs.Prelude.{◌≡◌, ◌++◌, true, false, OnOk, OnErr, MatchOption};
ghost use Rattle.std.specs.Str.{chars};
ghost use Rattle.schema_syntax_tokens.specs.Quotes.{quoted, quoted_body, quoted_char, is_escaped, WritesFront};
ghost use Rattle.schema_syntax_tokens.specs.Steps.{NoneEscaped, IsNextEscape};

use cedar_data::Text;
use std::alloc::AllocError;

/// How a character of one byte is written in a string where it must be escaped.
fn escape_text(byte: u8) -> Option<&'static str>
    ensures { MatchOption result (is_escaped byte ≡ false) (λ text. (is_escaped byte ≡ true)
        × (text.now ≡ quoted_char byte)) }
{
    match byte {
        0x00 => Some("\\0"),
        0x01 => Some("\\u{1}"),
        0x02 => Some("\\u{2}"),
        0x03 => Some("\\u{3}"),
        0x04 => Some("\\u{4}"),
        0x05 => Some("\\u{5}"),
        0x06 => Some("\\u{6}"),
        0x07 => Some("\\u{7}"),
        0x08 => Some("\\u{8}"),
        b'\t' => Some("\\t"),
        b'\n' => Some("\\n"),
        0x0b => Some("\\u{b}"),
        0x0c => Some("\\u{c}"),
        b'\r' => Some("\\r"),
        0x0e => Some("\\u{e}"),
        0x0f => Some("\\u{f}"),
        0x10 => Some("\\u{10}"),
        0x11 => Some("\\u{11}"),
        0x12 => Some("\\u{12}"),
        0x13 => Some("\\u{13}"),
        0x14 => Some("\\u{14}"),
        0x15 => Some("\\u{15}"),
        0x16 => Some("\\u{16}"),
        0x17 => Some("\\u{17}"),
        0x18 => Some("\\u{18}"),
        0x19 => Some("\\u{19}"),
        0x1a => Some("\\u{1a}"),
        0x1b => Some("\\u{1b}"),
        0x1c => Some("\\u{1c}"),
        0x1d => Some("\\u{1d}"),
        0x1e => Some("\\u{1e}"),
        0x1f => Some("\\u{1f}"),
        b'"' => Some("\\\""),
        b'\'' => Some("\\'"),
        b'\\' => Some("\\\\"),
        0x7f => Some("\\u{7f}"),
        _ => None,
    }
}

/// The first place of a byte that must be escaped, and how it is written.
fn next_escape(rest: &[u8]) -> Option<(usize, &'static str)>
    ensures { MatchOption result (NoneEscaped rest.now) (λ e. IsNextEscape rest.now e.0 e.1.now) }
{
    for (at, byte) in rest.iter().enumerate() {
        if let Some(escape) = escape_text(*byte) {
            return Some((at, escape));
        }
    }
    None
}

/// Writes the characters of a string, without its quotes.
fn push_body(text: &mut Text, value: &str) -> Result<(), AllocError>
    ensures ok { OnOk result (text.new ≡ text.old ++ chars (quoted_body (chars value.now))) }
    ensures err { OnErr result (WritesFront text.old text.new (chars (quoted_body (chars value.now)))) }
{
    let mut rest = value;
    while let Some((at, escape)) = next_escape(rest.as_bytes()) {
        let (plain, after) = rest.split_at(at);
        text.push_str(plain)?;
        text.push_str(escape)?;
        let (_, following) = after.split_at(1);
        rest = following;
    }
    text.push_str(rest)
}

/// Writes the text as a string, or, when out of memory, a front of it.
fn push_whole(text: &mut Text, value: &str) -> Result<(), AllocError>
    ensures ok { OnOk result (text.new ≡ text.old ++ chars (quoted (chars value.now))) }
    ensures err { OnErr result (WritesFront text.old text.new (chars (quoted (chars value.now)))) }
{
    text.push_str("\"")?;
    push_body(text, value)?;
    text.push_str("\"")
}

/// Writes the text as a string: `"`, each character, escaped where it must be, and `"`. When out of memory, nothing is
/// written.
pub fn push_quoted(text: &mut Text, value: &str) -> Result<(), AllocError>
    ensures ok { OnOk result (text.new ≡ text.old ++ chars (quoted (chars value.now))) }
    ensures err { OnErr result (text.new ≡ text.old) }
{
    let len = text.as_str().len();
    match push_whole(text, value) {
        Ok(()) => Ok(()),
        Err(error) => {
            text.truncate(len);
            Err(error)
        }
    }
}
