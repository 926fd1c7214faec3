ghost use Rattle.std.specs.Prelude.{◌≡◌};
ghost use Rattle.schema_syntax_tokens.specs.Forms.{word_kind, single_mark};

use cedar_data::same_bytes;
use schema_syntax_grammar::TokenKind;

/// The kind of the word. Only the words of its own length are compared with it.
pub(crate) fn word_kind(word: &str) -> TokenKind
    ensures { result ≡ word_kind word.now }
{
    match word.len() {
        2 => {
            if same_bytes(word, "in") {
                TokenKind::KwIn
            } else {
                TokenKind::Identifier
            }
        }
        3 => {
            if same_bytes(word, "Set") {
                TokenKind::KwSet
            } else {
                TokenKind::Identifier
            }
        }
        4 => {
            if same_bytes(word, "type") {
                TokenKind::KwType
            } else if same_bytes(word, "tags") {
                TokenKind::KwTags
            } else if same_bytes(word, "enum") {
                TokenKind::KwEnum
            } else {
                TokenKind::Identifier
            }
        }
        6 => {
            if same_bytes(word, "entity") {
                TokenKind::KwEntity
            } else if same_bytes(word, "action") {
                TokenKind::KwAction
            } else {
                TokenKind::Identifier
            }
        }
        7 => {
            if same_bytes(word, "context") {
                TokenKind::KwContext
            } else {
                TokenKind::Identifier
            }
        }
        8 => {
            if same_bytes(word, "external") {
                TokenKind::KwExternal
            } else if same_bytes(word, "resource") {
                TokenKind::KwResource
            } else {
                TokenKind::Identifier
            }
        }
        9 => {
            if same_bytes(word, "namespace") {
                TokenKind::KwNamespace
            } else if same_bytes(word, "appliesTo") {
                TokenKind::KwAppliesTo
            } else if same_bytes(word, "principal") {
                TokenKind::KwPrincipal
            } else {
                TokenKind::Identifier
            }
        }
        _ => TokenKind::Identifier,
    }
}

/// The kind of the mark that this byte is alone.
pub(crate) fn single_mark(byte: u8) -> Option<TokenKind>
    ensures { result ≡ single_mark byte }
{
    match byte {
        b'@' => Some(TokenKind::At),
        b',' => Some(TokenKind::Comma),
        b';' => Some(TokenKind::Semi),
        b':' => Some(TokenKind::Colon),
        b'(' => Some(TokenKind::LParen),
        b')' => Some(TokenKind::RParen),
        b'{' => Some(TokenKind::LBrace),
        b'}' => Some(TokenKind::RBrace),
        b'[' => Some(TokenKind::LBracket),
        b']' => Some(TokenKind::RBracket),
        b'<' => Some(TokenKind::Less),
        b'>' => Some(TokenKind::Greater),
        b'?' => Some(TokenKind::Question),
        b'=' => Some(TokenKind::Equals),
        _ => None,
    }
}
