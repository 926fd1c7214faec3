ghost use Rattle.std.specs.Prelude.{◌≡◌};
ghost use Rattle.schema_syntax_parser.specs.Syntax.{is_role};
ghost use Rattle.schema_syntax_parser.specs.Reading.{Gives, any_at, token_at, class_at, place_before};
ghost use Rattle.schema_syntax_grammar.specs.Grammar.{is_word_kind, is_ident, is_name_kind, same_kind};

use crate::stop::Stop;
use cedar_data::Loc;
use schema_syntax_grammar::TokenKind;
use schema_syntax_tokens::{ShortToken, whole_place};

// Whether the token is of the kind.
pub fn is_of(token: &ShortToken, kind: TokenKind) -> bool
    ensures { result ≡ same_kind kind token.now.kind }
{
    token.kind() == kind
}

// The token at the front, and the others.
pub fn any(tokens: &[ShortToken]) -> Result<(&ShortToken, &[ShortToken]), Stop>
    ensures { Gives (λ r. (r.0.now, r.1.now)) result (any_at tokens.now) }
{
    match tokens {
        [] => Err(Stop::Mismatch),
        [first, rest @ ..] => Ok((first, rest)),
    }
}

// The token at the front, which is of the kind.
pub fn token(tokens: &[ShortToken], kind: TokenKind) -> Result<(&ShortToken, &[ShortToken]), Stop>
    ensures { Gives (λ r. (r.0.now, r.1.now)) result (token_at kind tokens.now) }
{
    match tokens {
        [first, rest @ ..] if is_of(first, kind) => Ok((first, rest)),
        _ => Err(Stop::Mismatch),
    }
}

// The token at the front, which is of the kind of a word.
pub fn word(tokens: &[ShortToken]) -> Result<(&ShortToken, &[ShortToken]), Stop>
    ensures { Gives (λ r. (r.0.now, r.1.now)) result (class_at is_word_kind tokens.now) }
{
    match tokens {
        [first, rest @ ..] if first.kind().is_word() => Ok((first, rest)),
        _ => Err(Stop::Mismatch),
    }
}

// The token at the front, which is of the kind of a word that can be a name.
pub fn ident(tokens: &[ShortToken]) -> Result<(&ShortToken, &[ShortToken]), Stop>
    ensures { Gives (λ r. (r.0.now, r.1.now)) result (class_at is_ident tokens.now) }
{
    match tokens {
        [first, rest @ ..] if first.kind().is_ident() => Ok((first, rest)),
        _ => Err(Stop::Mismatch),
    }
}

// The token at the front, which is of the kind of a name.
pub fn name(tokens: &[ShortToken]) -> Result<(&ShortToken, &[ShortToken]), Stop>
    ensures { Gives (λ r. (r.0.now, r.1.now)) result (class_at is_name_kind tokens.now) }
{
    match tokens {
        [first, rest @ ..] if first.kind().is_name() => Ok((first, rest)),
        _ => Err(Stop::Mismatch),
    }
}

// Whether it is the kind of `principal` or of `resource`.
pub fn is_role(kind: TokenKind) -> bool
    ensures { result ≡ is_role kind }
{
    matches!(kind, TokenKind::KwPrincipal | TokenKind::KwResource)
}

// The place of the tokens that stand before the rest.
pub fn place(tokens: &[ShortToken], rest: &[ShortToken]) -> Loc
    ensures { result ≡ place_before tokens.now rest.now }
{
    let len = tokens.len().saturating_sub(rest.len());
    let (before, _) = tokens.split_at(len);
    whole_place(before)
}
