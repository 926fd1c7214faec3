//! Fronts of texts, counted in characters.
ghost use Rattle.std.specs.Prelude.{◌≡◌, take, drop};
ghost use Rattle.std.specs.Str.{chars};
ghost use Rattle.schema_report.specs.FirstChar.{IsPast};

use crate::first_char::first_char;

// The text behind its first characters.
pub(crate) fn past_chars(text: &str, count: usize) -> &str
    ensures rest { chars result.now ≡ drop count (chars text.now) }
    ensures cut { IsPast text.now count result.now }
{
    let mut rest = text;
    for _at in 0..count {
        match first_char(rest) {
            Some((_, after)) => rest = after,
            None => return rest,
        }
    }
    rest
}

// The first characters of the text.
pub(crate) fn front_chars(text: &str, count: usize) -> &str
    ensures { chars result.now ≡ take count (chars text.now) }
{
    let rest = past_chars(text, count);
    let (front, _) = text.split_at(text.len() - rest.len());
    front
}
