ghost use Rattle.std.specs.Prelude.{◌≤◌, ◌↔◌, length, MatchOption, IfOk, IsTrue, ◌≡◌};
ghost use Rattle.std.specs.List.{All};
ghost use Rattle.std.specs.Str.{IsCharBoundary};
ghost use Rattle.schema_syntax_tokens.specs.Scans.{NoForm, IsLongest, Scans, IsPlaced};
ghost use Rattle.schema_syntax_tokens.specs.Steps.{StartsWord, StartsString, StartsOther, StartsColons};

use crate::blanks::past_blanks;
use crate::strings::body_len;
use crate::token::{ShortToken, Token};
use crate::words::{single_mark, word_kind};
use cedar_data::{is_word_start, word_len};
use schema_syntax_grammar::TokenKind;
use std::alloc::{AllocError, Global};

/// The tokens of a text, and where they stop.
#[derive(Drop)]
pub struct Scanned {
    pub tokens: Vec<Token>,
    /// The byte offset where they stop.
    pub at: usize,
}

/// The tokens of a text in little room, and where they stop.
#[derive(Drop)]
pub struct ShortScan {
    pub tokens: Vec<ShortToken>,
    /// The byte offset where they stop.
    pub at: usize,
}

/// The word that the text begins with, where it begins with one: its kind and its length.
fn word_of(rest: &str) -> (TokenKind, usize)
    requires { StartsWord rest.now }
    ensures { IsLongest rest.now result.0 result.1 }
{
    let len = word_len(rest.as_bytes());
    let (word, _) = rest.split_at(len);
    (word_kind(word), len)
}

/// The string that the bytes begin with, where they begin with a quote.
fn string_of(rest: &[u8]) -> Option<(TokenKind, usize)>
    requires { StartsString rest.now }
    ensures { MatchOption result (NoForm rest.now) (λ t. IsLongest rest.now t.0 t.1) }
{
    match body_len(&rest[1..]) {
        None => None,
        Some(len) => Some((TokenKind::StringLit, len + 2)),
    }
}

/// Whether the bytes begin with `::`.
fn starts_colons(rest: &[u8]) -> bool
    ensures { IsTrue result ↔ StartsColons rest.now }
{
    match rest {
        [b':', b':', ..] => true,
        _ => false,
    }
}

/// The mark that the bytes begin with, where they begin with neither a word nor a quote.
fn mark_of(rest: &[u8]) -> Option<(TokenKind, usize)>
    requires { StartsOther rest.now }
    ensures { MatchOption result (NoForm rest.now) (λ t. IsLongest rest.now t.0 t.1) }
{
    if starts_colons(rest) {
        return Some((TokenKind::PathSep, 2));
    }
    if rest.is_empty() {
        return None;
    }
    match single_mark(rest[0]) {
        None => None,
        Some(kind) => Some((kind, 1)),
    }
}

/// The longest token that the text begins with: its kind and its length.
pub fn token_of(rest: &str) -> Option<(TokenKind, usize)>
    ensures { MatchOption result (NoForm rest.now) (λ t. IsLongest rest.now t.0 t.1) }
{
    let bytes = rest.as_bytes();
    if bytes.is_empty() {
        return None;
    }
    let first = bytes[0];
    if is_word_start(first) {
        return Some(word_of(rest));
    }
    if first == b'"' {
        return string_of(bytes);
    }
    mark_of(bytes)
}

/// The tokens of the text in little room, as far as there are any: `at` is the end of the text, or the place where
/// neither a blank nor a token stands. A text of 4 GiB or more is answered by out of memory.
pub fn scan_short(alloc: Global, text: &str) -> Result<ShortScan, AllocError>
    ensures scans { IfOk result (λ s. Scans text.now s.tokens.items s.at) }
    ensures placed { IfOk result (λ s. All (IsPlaced text.now) s.tokens.items) }
    ensures in_range { IfOk result (λ s. s.at ≤ length text.now) }
    ensures boundary { IfOk result (λ s. IsCharBoundary text.now s.at) }
{
    if text.len() > u32::MAX as usize {
        return Err(AllocError);
    }
    let mut tokens = Vec::new(alloc);
    let mut rest = text;
    loop {
        let here = past_blanks(rest);
        let start = text.len() - here.len();
        match token_of(here) {
            None => return Ok(ShortScan { tokens, at: start }),
            Some((kind, len)) => {
                tokens.push(ShortToken::new(kind, start, start + len))?;
                let (_, after) = here.split_at(len);
                rest = after;
            }
        }
    }
}

/// The tokens of the text as far as there are any: `at` is the end of the text, or the place where neither a blank nor
/// a token stands.
pub fn scan(alloc: Global, text: &str) -> Result<Scanned, AllocError>
    ensures scans { IfOk result (λ s. Scans text.now s.tokens.items s.at) }
    ensures placed { IfOk result (λ s. All (IsPlaced text.now) s.tokens.items) }
    ensures in_range { IfOk result (λ s. s.at ≤ length text.now) }
    ensures boundary { IfOk result (λ s. IsCharBoundary text.now s.at) }
{
    let ShortScan { tokens, at } = scan_short(alloc, text)?;
    let tokens = in_full(alloc, &tokens)?;
    Ok(Scanned { tokens, at })
}

// The tokens, each in full.
fn in_full(alloc: Global, tokens: &[ShortToken]) -> Result<Vec<Token>, AllocError>
    ensures { IfOk result (λ full. full.items ≡ tokens.now) }
{
    tokens.iter().map(|token| token.token()).collect(alloc)
}
