// The pieces of a name, one after another.
ghost use Rattle.std.specs.Prelude.{◌≡◌, ◌<◌, [], drop, MatchOption};
ghost use Rattle.std.specs.List.{prefix_len};
ghost use Rattle.std.specs.Str.{chars};
ghost use Rattle.std.specs.Char.{is_ascii_digit};
ghost use Rattle.cedar_data.specs.Words.{is_word_start, is_in_line};
ghost use Rattle.cedar_identifiers.specs.NamePieces.{space_len, starts_twice, is_mark, blank_len, piece_len};
ghost use Rattle.cedar_identifiers.specs.NamePieces.{BeginsWith};
ghost use Rattle.cedar_identifiers.specs.Fronts.{IsFront};

use cedar_data::{is_word_start, word_len};

// What stands at the front of a text, behind its blanks: nothing more, no piece, or a piece and what follows it.
pub(crate) enum Front<'a> {
    Over,
    Nothing,
    Piece(&'a str, &'a str),
}

// A piece of one character.
fn is_mark(byte: u8) -> bool
    ensures { result ≡ is_mark byte }
{
    b"!&()*+,-./:;<=>?@[]{|}".contains(&byte)
}

// How many digits stand at the front.
fn digits_len(bytes: &[u8]) -> usize
    ensures { result ≡ prefix_len is_ascii_digit bytes.now }
{
    for (i, byte) in bytes.iter().enumerate() {
        if !byte.is_ascii_digit() {
            return i;
        }
    }
    bytes.len()
}

// How many bytes stand before the end of the line.
fn line_len(bytes: &[u8]) -> usize
    ensures { result ≡ prefix_len is_in_line bytes.now }
{
    for (i, byte) in bytes.iter().enumerate() {
        if *byte == b'\n' || *byte == b'\r' {
            return i;
        }
    }
    bytes.len()
}

// How many bytes the piece at the front has, which are 0 where no piece stands there.
fn piece_len(bytes: &[u8]) -> usize
    ensures { result ≡ piece_len bytes.now }
{
    match bytes {
        [] => 0,
        [first, ..] => {
            if is_word_start(*first) {
                word_len(bytes)
            } else if first.is_ascii_digit() {
                digits_len(bytes)
            } else if starts_twice(b':', bytes) {
                2
            } else if is_mark(*first) {
                1
            } else {
                0
            }
        }
    }
}

// Whether the byte stands twice at the front.
fn starts_twice(byte: u8, bytes: &[u8]) -> bool
    ensures { result ≡ starts_twice byte bytes.now }
{
    match bytes {
        [first, second, ..] => *first == byte && *second == byte,
        _ => false,
    }
}

// What follows the White_Space character at the front.
fn past_space(text: &str) -> Option<&str>
    ensures { MatchOption result (space_len (chars text.now) ≡ 0) (λ rest. (0 < space_len (chars text.now))
        × (rest.now ≡ drop (space_len (chars text.now)) text.now)) }
{
    let mut chars = text.chars();
    match chars.next() {
        Some(first) => {
            if first.is_whitespace() {
                Some(chars.as_str())
            } else {
                None
            }
        }
        None => None,
    }
}

// What follows the blank at the front.
#[tactic(auto, unfolding(crate::specs::NamePieces::blank_len))]
fn past_blank(text: &str) -> Option<&str>
    ensures { MatchOption result (blank_len text.now ≡ 0) (λ rest. (0 < blank_len text.now)
        × (rest.now ≡ drop (blank_len text.now) text.now)) }
{
    if starts_twice(b'/', text.as_bytes()) {
        let len = line_len(text.as_bytes());
        Some(text.split_at(len).1)
    } else {
        past_space(text)
    }
}

// What follows the blanks at the front.
fn past_blanks(text: &str) -> &str
    ensures skipped { BeginsWith text.now [] result.now }
    ensures no_blank { blank_len result.now ≡ 0 }
{
    let mut rest = text;
    while let Some(after) = past_blank(rest) {
        rest = after;
    }
    rest
}

// What stands at the front, behind the blanks.
pub(crate) fn next_front(text: &str) -> Front<'_>
    ensures { IsFront text.now result }
{
    let rest = past_blanks(text);
    if rest.is_empty() {
        return Front::Over;
    }
    let len = piece_len(rest.as_bytes());
    if len == 0 {
        Front::Nothing
    } else {
        let (piece, after) = rest.split_at(len);
        Front::Piece(piece, after)
    }
}
