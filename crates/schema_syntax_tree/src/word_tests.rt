ghost use Rattle.std.specs.Prelude.{◌≡◌};
ghost use Rattle.cedar_identifiers.specs.Words.{is_id};

use cedar_data::is_word;
use cedar_identifiers::is_reserved;

/// Whether the text is a word that may stand in a name.
pub fn is_id(text: &str) -> bool
    ensures { result ≡ is_id text.now }
{
    if is_word(text) {
        !is_reserved(text)
    } else {
        false
    }
}
