//! Texts that are compared byte by byte, which is the shortest way for names: most of them differ in one of their first
//! bytes.
ghost use Rattle.std.specs.Prelude.{◌≡◌};
ghost use Rattle.std.specs.Cmp.Lexicographic.{slice_cmp};
ghost use Rattle.std.specs.Ordering.{nat_cmp};
ghost use Rattle.std.specs.Str.{bytes_eq};

use std::cmp::Ordering;

/// The order of the texts by their bytes. What is behind the first 16 is compared many at a time.
pub fn compare_bytes(first: &str, second: &str) -> Ordering
    ensures { result ≡ slice_cmp nat_cmp first.now second.now }
{
    let mut ones = first.as_bytes();
    let mut others = second.as_bytes();
    let mut left = 16;
    while left > 0 {
        left -= 1;
        match ones {
            [] => return 0.cmp(&others.len()),
            [one, ones_left @ ..] => match others {
                [] => return Ordering::Greater,
                [other, others_left @ ..] => {
                    if one != other {
                        return one.cmp(other);
                    }
                    ones = ones_left;
                    others = others_left;
                }
            },
        }
    }
    first.cmp(second)
}

/// Whether the texts have the same bytes. What is behind the first 16 is compared many at a time.
pub fn same_bytes(first: &str, second: &str) -> bool
    ensures { result ≡ bytes_eq first.now second.now }
{
    let mut ones = first.as_bytes();
    let mut others = second.as_bytes();
    let mut left = 16;
    while left > 0 {
        left -= 1;
        match ones {
            [] => return others.is_empty(),
            [one, ones_left @ ..] => match others {
                [] => return false,
                [other, others_left @ ..] => {
                    if one != other {
                        return false;
                    }
                    ones = ones_left;
                    others = others_left;
                }
            },
        }
    }
    first == second
}
