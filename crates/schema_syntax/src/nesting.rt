// How deep the brackets of a text are nested.

ghost use Rattle.std.specs.Prelude.{◌≡◌, ◌↔◌, true};
ghost use Rattle.schema_syntax_tokens.specs.TokenLists.{kinds_of};
ghost use Rattle.schema_syntax.specs.Nesting.{opens, closes, IsTooDeep};

use schema_syntax_grammar::TokenKind;
use schema_syntax_tokens::ShortToken;

/// How many brackets a schema text may have open at one place. Functions that read, translate, build and print a type
/// call themselves once for each bracket that is open there, so this bounds the stack that they take.
pub const DEEPEST: usize = 4096;

// Whether it is an opening bracket.
fn opens(kind: TokenKind) -> bool
    ensures { result ≡ opens kind }
{
    match kind {
        TokenKind::LParen | TokenKind::LBrace | TokenKind::LBracket | TokenKind::Less => true,
        _ => false,
    }
}

// Whether it is a closing bracket.
fn closes(kind: TokenKind) -> bool
    ensures { result ≡ closes kind }
{
    match kind {
        TokenKind::RParen | TokenKind::RBrace | TokenKind::RBracket | TokenKind::Greater => true,
        _ => false,
    }
}

/// Whether more than `DEEPEST` brackets are open at some place of the tokens.
pub fn is_too_deep(tokens: &[ShortToken]) -> bool
    ensures { result ≡ true ↔ IsTooDeep (kinds_of tokens.now) }
{
    let mut opened = 0usize;
    let mut closed = 0usize;
    for token in tokens {
        let kind = token.kind();
        if opens(kind) {
            opened += 1;
        }
        if closes(kind) {
            closed += 1;
        }
        if closed + DEEPEST < opened {
            return true;
        }
    }
    false
}
