//! Words that a schema keeps for itself.
ghost use Rattle.std.specs.Prelude.{◌≡◌};
ghost use Rattle.cedar_identifiers.specs.Words.{is_reserved, is_cedar};

use cedar_data::same_bytes;

/// Whether the word is one of the nine that are no names: `in`, and eight words of policies.
pub fn is_reserved(word: &str) -> bool
    ensures { result ≡ is_reserved word.now }
{
    match word.len() {
        2 => same_bytes(word, "in") || same_bytes(word, "if") || same_bytes(word, "is"),
        3 => same_bytes(word, "has"),
        4 => {
            same_bytes(word, "true")
                || same_bytes(word, "then")
                || same_bytes(word, "else")
                || same_bytes(word, "like")
        }
        5 => same_bytes(word, "false"),
        _ => false,
    }
}

/// Whether the word is `__cedar`, the namespace of the built-in types.
pub fn is_cedar(word: &str) -> bool
    ensures { result ≡ is_cedar word.now }
{
    same_bytes(word, "__cedar")
}
