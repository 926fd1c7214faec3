ghost use Rattle.std.specs.Prelude.{◌≡◌, true, MatchOption};
ghost use Rattle.std.specs.Char.{is_digit, digit_value};
ghost use Rattle.std.specs.List.{AllPass, prefix_len};
ghost use Rattle.std.specs.Option.{SomeIff};
ghost use Rattle.schema_syntax_tokens.specs.Escapes.{simple_escape, is_place, NoEscape, IsEscapeTo};
ghost use Rattle.schema_syntax_tokens.specs.Steps.{HasPlaces, NoPlaces, IsHexPair, NoHexPair, IsBraced, NoBraced};

use std::char::from_u32;

/// The value of a hex digit.
fn hex_digit(byte: u8) -> Option<u32>
    ensures { SomeIff result (is_digit byte 16 ≡ true) (digit_value byte) }
{
    (byte as char).to_digit(16)
}

/// The character of `\n` and its like, by what follows the backslash.
fn simple_escape(byte: u8) -> Option<char>
    ensures { result ≡ simple_escape byte }
{
    match byte {
        b'n' => Some('\n'),
        b'r' => Some('\r'),
        b't' => Some('\t'),
        b'\\' => Some('\\'),
        b'0' => Some('\0'),
        b'\'' => Some('\''),
        b'"' => Some('"'),
        _ => None,
    }
}

/// The character of two hex digits, up to 7F, that the bytes begin with.
fn hex_pair(rest: &[u8]) -> Option<char>
    ensures { MatchOption result (NoHexPair rest.now) (IsHexPair rest.now) }
{
    match rest {
        [high, low, ..] => match hex_digit(*high) {
            None => None,
            Some(first) => match hex_digit(*low) {
                None => None,
                Some(second) => {
                    let code = first * 16 + second;
                    if code > 127 { None } else { from_u32(code) }
                }
            },
        },
        _ => None,
    }
}

/// How many hex digits and `_` the bytes begin with.
fn place_len(rest: &[u8]) -> usize
    ensures { result ≡ prefix_len is_place rest.now }
{
    for (at, byte) in rest.iter().enumerate() {
        if !is_place(*byte) {
            return at;
        }
    }
    rest.len()
}

/// Whether it is a hex digit or `_`.
fn is_place(byte: u8) -> bool
    ensures { result ≡ is_place byte }
{
    byte.is_ascii_hexdigit() || byte == b'_'
}

/// The value of the places: one to six hex digits, the first place a digit, and `_` among them.
fn places_value(places: &[u8]) -> Option<u32>
    requires { AllPass is_place places.now }
    ensures { MatchOption result (NoPlaces places.now) (HasPlaces places.now) }
{
    if places.is_empty() {
        return None;
    }
    let mut value: u32 = 0;
    let mut digits: u32 = 0;
    for (at, place) in places.iter().enumerate() {
        match hex_digit(*place) {
            None => {
                if at == 0 {
                    return None;
                }
            }
            Some(digit) => {
                if digits == 6 {
                    return None;
                }
                value = value * 16 + digit;
                digits += 1;
            }
        }
    }
    Some(value)
}

/// The character of the places that the bytes begin with, where `}` follows them, and how many places there are.
fn braced(rest: &[u8]) -> Option<(char, usize)>
    ensures { MatchOption result (NoBraced rest.now) (λ e. IsBraced rest.now e.1 e.0) }
{
    let len = place_len(rest);
    if len == rest.len() {
        return None;
    }
    if rest[len] != b'}' {
        return None;
    }
    match places_value(&rest[..len]) {
        None => None,
        Some(code) => match from_u32(code) {
            None => None,
            Some(character) => Some((character, len)),
        },
    }
}

/// The lawful escape that the bytes begin with: its character and its length.
pub(crate) fn escape_of(rest: &[u8]) -> Option<(char, usize)>
    ensures { MatchOption result (NoEscape rest.now) (λ e. IsEscapeTo rest.now e.1 e.0) }
{
    match rest {
        [b'\\', b'x', pair @ ..] => match hex_pair(pair) {
            None => None,
            Some(character) => Some((character, 4)),
        },
        [b'\\', b'u', b'{', places @ ..] => match braced(places) {
            None => None,
            Some((character, len)) => Some((character, len + 4)),
        },
        [b'\\', byte, ..] => match simple_escape(*byte) {
            None => None,
            Some(character) => Some((character, 2)),
        },
        _ => None,
    }
}
