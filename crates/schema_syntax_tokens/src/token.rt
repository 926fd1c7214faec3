ghost use Rattle.std.specs.Prelude.{◌≡◌, ◌≤◌, ◌<◌, ◌^◌, [], ◌∷◌, ◌++◌, IsSome, IfSome, MatchOption, slice_range};
ghost use Rattle.schema_syntax_grammar.specs.declared.token_kind.TokenKind.TheVariants.{StringLit};
ghost use Rattle.schema_syntax_tokens.specs.Scans.{IsPlaced};
ghost use Rattle.schema_syntax_tokens.specs.Steps.{IsBetweenQuotes, NotBetweenQuotes};
ghost use Rattle.schema_syntax_tokens.specs.TokenLists.{end_of, whole_place};

use cedar_data::Loc;
use schema_syntax_grammar::{HasKind, TokenKind};
use std::marker::Model;

/// A token: its kind and its place.
#[derive(Clone, Copy, PartialEq, Eq)]
pub struct Token {
    pub kind: TokenKind,
    pub loc: Loc,
}

/// A token of a text below 4 GiB, in half the room. Contracts see it as the token.
#[derive(Clone, Copy)]
pub struct ShortToken {
    kind: TokenKind,
    start: u32,
    end: u32,
}

impl Model for ShortToken {
    ghost use Rattle.std.specs.Prelude.{◌≤◌};
    ghost use Rattle.schema_syntax_tokens.specs.declared.token.Token.{Token};

    ghost Value = { Token };

    ghost view = { λ t. record { kind = t.kind; loc = record { start = t.start; end = t.end } } };

    ghost invariant = { λ t. t.start ≤ t.end };

    ghost inverse = { λ t. record { kind = t.kind; start = t.loc.start; end = t.loc.end } };
}

impl ShortToken {
    /// The token of this kind from `start` to `end`, which is not before it, and below 4 GiB.
    pub fn new(kind: TokenKind, start: usize, end: usize) -> ShortToken
        requires in_order { start ≤ end }
        requires short { end < 2 ^ 32 }
        ensures { result ≡ record { kind = kind; loc = record { start = start; end = end } } }
    {
        ShortToken {
            kind,
            start: start as u32,
            end: end as u32,
        }
    }

    /// Its kind.
    pub fn kind(&self) -> TokenKind
        ensures { result ≡ self.now.kind }
    {
        self.kind
    }

    /// Its place.
    pub fn loc(&self) -> Loc
        ensures { result ≡ self.now.loc }
    {
        Loc::new(self.start as usize, self.end as usize)
    }

    /// The token, in full.
    pub fn token(&self) -> Token
        ensures { result ≡ self.now }
    {
        Token {
            kind: self.kind,
            loc: self.loc(),
        }
    }
}

impl HasKind for ShortToken {
    ghost kind_of = { λ token. token.kind };

    fn kind(&self) -> TokenKind {
        self.kind
    }
}

/// From the first of the tokens through the last.
pub fn whole_place(tokens: &[ShortToken]) -> Loc
    ensures { result ≡ whole_place tokens.now }
{
    match tokens {
        [] => Loc::new(0, 0),
        [first, others @ ..] => place_from(first, others),
    }
}

/// From the first token through the last of the others, where there are others.
pub fn place_from(first: &ShortToken, others: &[ShortToken]) -> Loc
    ensures { result ≡ whole_place (first.now ∷ others.now) }
{
    let end = last_end(first, others);
    let place = first.loc();
    Loc::new(place.start, place.start.max(end))
}

// Where the last of the tokens ends.
fn last_end(first: &ShortToken, others: &[ShortToken]) -> usize
    ensures { result ≡ end_of first.now others.now }
{
    match others {
        [] => {
            let only = first.loc();
            only.end
        }
        [_, ..] => {
            let last = others[others.len() - 1].loc();
            last.end
        }
    }
}

/// What stands at the token's place in the text: there for each token that the text was scanned into.
pub fn token_text<'a>(token: &ShortToken, text: &'a str) -> Option<&'a str>
    ensures placed { IsPlaced text.now token.now → IsSome result }
    ensures value { IfSome result (λ part. part.now ≡ slice_range text.now token.now.loc.start token.now.loc.end) }
{
    token.loc().snippet(text)
}

/// What stands between the first and the last byte, where both are `"`.
fn between_quotes(part: &str) -> Option<&str>
    ensures { MatchOption result (NotBetweenQuotes part.now) (λ body. IsBetweenQuotes part.now body.now) }
{
    let bytes = part.as_bytes();
    let len = bytes.len();
    if len < 2 {
        return None;
    }
    if bytes[0] != b'"' {
        return None;
    }
    if bytes[len - 1] != b'"' {
        return None;
    }
    let (opened, _) = part.split_at(len - 1);
    let (_, body) = opened.split_at(1);
    Some(body)
}

/// What stands between the quotes of the string at the token's place: there for each string that the text was scanned
/// into.
pub fn string_body<'a>(token: &ShortToken, text: &'a str) -> Option<&'a str>
    ensures placed { IsPlaced text.now token.now → token.now.kind ≡ StringLit → IsSome result }
    ensures value { IfSome result (λ body. slice_range text.now token.now.loc.start token.now.loc.end
        ≡ 34 ∷ (body.now ++ 34 ∷ [])) }
{
    match token_text(token, text) {
        None => None,
        Some(part) => between_quotes(part),
    }
}
