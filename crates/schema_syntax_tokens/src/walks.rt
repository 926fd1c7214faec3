//! What bodies of strings stand for, without memory.
ghost use Rattle.std.specs.Prelude.{◌≡◌, ◌<◌, List, ℕ, length, nat_eq, IfOk, IfErr, IfSome, MatchOption};
ghost use Rattle.std.specs.Cmp.Lexicographic.{pointwise};
ghost use Rattle.std.specs.Str.{IsUtf8};
ghost use Rattle.schema_syntax_tokens.specs.Escapes.{Unescapes, BadEscape};
ghost use Rattle.schema_syntax_tokens.specs.Values.{HasValue, Begins, NoPiece};

use crate::escapes::plain_len;
use crate::places::escape_of;

/// Whether the body stands for something, or the first backslash that begins no escape.
pub fn check_escapes(body: &str) -> Result<(), usize>
    ensures value { IfOk result (λ _. HasValue body.now) }
    ensures bad { IfErr result (BadEscape body.now) }
{
    let mut rest = body;
    loop {
        let (_, after) = rest.split_at(plain_len(rest.as_bytes()));
        if after.is_empty() {
            return Ok(());
        }
        match escape_of(after.as_bytes()) {
            None => return Err(body.len() - after.len()),
            Some((_, len)) => {
                let (_, following) = after.split_at(len);
                rest = following;
            }
        }
    }
}

/// The character that the rest of a body begins with, and what follows its piece.
pub fn next_piece(rest: &str) -> Option<(char, &str)>
    ensures cases { MatchOption result (NoPiece rest.now) (λ p. Begins rest.now p.0 p.1.now) }
    ensures shorter { IfSome result (λ p. length p.1.now < length rest.now) }
    ensures text { IfSome result (λ p. IsUtf8 p.1.now) }
{
    match escape_of(rest.as_bytes()) {
        Some((character, len)) => {
            let (_, after) = rest.split_at(len);
            Some((character, after))
        }
        None => {
            let mut chars = rest.chars();
            match chars.next() {
                None => None,
                Some(character) => {
                    if character == '\\' {
                        None
                    } else {
                        Some((character, chars.as_str()))
                    }
                }
            }
        }
    }
}

/// Whether two bodies stand for the same characters.
pub fn same_value(left: &str, right: &str) -> bool
    ensures { (v w : List ℕ) → Unescapes left.now v → Unescapes right.now w → result ≡ pointwise nat_eq v w }
{
    let mut one = left;
    let mut other = right;
    loop {
        let first = next_piece(one);
        let second = next_piece(other);
        match (first, second) {
            (Some((first, after)), Some((second, behind))) => {
                if first != second {
                    return false;
                }
                one = after;
                other = behind;
            }
            (None, None) => return true,
            (Some(_), None) => return false,
            (None, Some(_)) => return false,
        }
    }
}
