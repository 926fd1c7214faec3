//! The characters of a text, one after another.
ghost use Rattle.std.specs.Prelude.{◌≡◌, [], MatchOption};
ghost use Rattle.schema_report.specs.FirstChar.{IsFirstChar};

// The character that the text begins with, and what follows it. An empty text has none.
pub(crate) fn first_char(text: &str) -> Option<(char, &str)>
    ensures { MatchOption result (text.now ≡ []) (λ parts. IsFirstChar text.now parts.0 parts.1.now) }
{
    let mut chars = text.chars();
    let first = chars.next()?;
    Some((first, chars.as_str()))
}
