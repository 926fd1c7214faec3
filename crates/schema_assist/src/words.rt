// The place that a word says.

ghost use Rattle.std.specs.Prelude.{◌≡◌, ℕ, MatchOption};
ghost use Rattle.schema_assist.specs.Words.{IsPlaceWord};

const MOST_DIGITS: usize = 8;

/// The place that the word says: one to eight digits.
pub fn place_of(word: &str) -> Option<usize>
    ensures { MatchOption result ((place : ℕ) → IsPlaceWord word.now place → ⊥) (IsPlaceWord word.now) }
{
    if word.len() > MOST_DIGITS || word.starts_with('+') {
        return None;
    }
    word.parse::<usize>().ok()
}
