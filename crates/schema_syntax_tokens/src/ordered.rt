//! The order of what bodies stand for, by bytes in UTF-8 and without memory.
ghost use Rattle.std.specs.Prelude.{◌≡◌, List, ℕ};
ghost use Rattle.std.specs.Cmp.Lexicographic.{slice_cmp};
ghost use Rattle.std.specs.Char.{encode_utf8};
ghost use Rattle.std.specs.Ordering.{nat_cmp};
ghost use Rattle.cedar_data.specs.Text.{text_cmp};
ghost use Rattle.schema_syntax_tokens.specs.Escapes.{Unescapes};

use crate::walks::next_piece;
use std::cmp::Ordering;

/// How what one body stands for is ordered to what another does: as texts are.
pub fn cmp_values(left: &str, right: &str) -> Ordering
    ensures { (v w : List ℕ) → Unescapes left.now v → Unescapes right.now w → result ≡ text_cmp v w }
{
    let mut one = left;
    let mut other = right;
    loop {
        let first = next_piece(one);
        let second = next_piece(other);
        match (first, second) {
            (Some((first, after)), Some((second, behind))) => {
                match cmp_chars(first, second) {
                    Ordering::Less => return Ordering::Less,
                    Ordering::Greater => return Ordering::Greater,
                    Ordering::Equal => {}
                }
                one = after;
                other = behind;
            }
            (None, None) => return Ordering::Equal,
            (Some(_), None) => return Ordering::Greater,
            (None, Some(_)) => return Ordering::Less,
        }
    }
}

// How two characters are ordered: by their bytes.
fn cmp_chars(first: char, second: char) -> Ordering
    ensures { result ≡ slice_cmp nat_cmp (encode_utf8 first) (encode_utf8 second) }
{
    let mut one = [0; 4];
    let mut other = [0; 4];
    let first = first.encode_utf8(&mut one);
    let second = second.encode_utf8(&mut other);
    first.cmp(second)
}
