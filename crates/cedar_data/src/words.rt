//! Words at the front of bytes.
ghost use Rattle.std.specs.Prelude.{◌≡◌};
ghost use Rattle.std.specs.List.{list_all, prefix_len};
ghost use Rattle.cedar_data.specs.Words.{is_word_start, is_word_part, is_word};

/// Whether a word may begin with this byte: a letter or `_`.
pub fn is_word_start(byte: u8) -> bool
    ensures { result ≡ is_word_start byte }
{
    byte.is_ascii_alphabetic() || byte == b'_'
}

/// Whether this byte may stand in a word: a letter, a digit or `_`.
pub fn is_word_part(byte: u8) -> bool
    ensures { result ≡ is_word_part byte }
{
    byte.is_ascii_alphanumeric() || byte == b'_'
}

/// How many bytes stand before the first that is no part of a word.
pub fn word_len(bytes: &[u8]) -> usize
    ensures { result ≡ prefix_len is_word_part bytes.now }
{
    for (at, byte) in bytes.iter().enumerate() {
        if !is_word_part(*byte) {
            return at;
        }
    }
    bytes.len()
}

/// Whether the text is a word.
pub fn is_word(text: &str) -> bool
    ensures { result ≡ is_word text.now }
{
    match text.as_bytes() {
        [] => false,
        [first, rest @ ..] => is_word_start(*first) && are_word_parts(rest),
    }
}

// Whether each byte may stand in a word.
fn are_word_parts(bytes: &[u8]) -> bool
    ensures { result ≡ list_all is_word_part bytes.now }
{
    bytes.iter().all(|byte| is_word_part(*byte))
}
