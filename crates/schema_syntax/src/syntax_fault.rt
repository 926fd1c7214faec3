ghost use Rattle.std.specs.Prelude.{◌≡◌, ◌<◌, List, length, IfOk, IfErr, MatchOption, Some};
ghost use Rattle.std.specs.List.{All};
ghost use Rattle.schema_syntax_grammar.specs.Grammar.{Sentence};
ghost use Rattle.schema_syntax_tokens.specs.Scans.{Scans, IsPlaced};
ghost use Rattle.schema_syntax.specs.Nesting.{IsTooDeep};
ghost use Rattle.schema_syntax.specs.SyntaxFaults.{IsSyntaxFault, IsSentence, IsSyntaxRefusal, IsTokenAt, IsEndOf};
ghost use Rattle.schema_syntax_tokens.specs.TokenLists.{kinds_of};

use crate::nesting::is_too_deep;
use cedar_data::Text;
use schema_syntax_grammar::{Fault, TokenKind, fault_of};
use schema_syntax_tokens::{ShortScan, ShortToken, scan_short, token_text};
use std::alloc::{AllocError, Global};

/// Why a text is no schema by its tokens and its grammar. Each place is a byte offset.
#[derive(Drop)]
pub enum SyntaxFault {
    /// No token stands at this place, behind tokens with which some schema begins.
    InvalidToken(usize),
    /// The token from the first place to the second stands where no schema has it. The last part lists exactly the
    /// kinds that some schema has there, `End` among them where the tokens before it are a schema.
    UnrecognizedToken(usize, Text, usize, cedar_data::List<TokenKind>),
    /// The text ends where its last token does, and is no schema yet. The last part lists exactly the kinds that may
    /// come.
    UnrecognizedEof(usize, cedar_data::List<TokenKind>),
}

// The fault that the token at the place is.
fn unrecognized_token(
    alloc: Global,
    text: &str,
    tokens: &[ShortToken],
    place: usize,
    expected: Vec<TokenKind>,
) -> Result<SyntaxFault, AllocError>
    requires within { place < length tokens.now }
    requires placed { All (IsPlaced text.now) tokens.now }
    ensures { IfOk result (λ fault. IsTokenAt text.now tokens.now place expected.items fault) }
{
    let token = &tokens[place];
    let part = token_text(token, text).unwrap();
    let part = Text::from_str(alloc, part)?;
    let loc = token.loc();
    let expected = cedar_data::List::from_vec(expected);
    Ok(SyntaxFault::UnrecognizedToken(loc.start, part, loc.end, expected))
}

// The fault that the end of the tokens is.
fn unrecognized_eof(tokens: &[ShortToken], expected: Vec<TokenKind>) -> SyntaxFault
    requires { 0 < length tokens.now }
    ensures { IsEndOf tokens.now expected.items result }
{
    let last = &tokens[tokens.len() - 1];
    let loc = last.loc();
    SyntaxFault::UnrecognizedEof(loc.end, cedar_data::List::from_vec(expected))
}

/// Why a text has no tokens of a schema.
#[derive(Drop)]
pub enum Refused {
    /// The text has this syntax fault.
    Fault(SyntaxFault),
    /// Out of memory, or of the stack that brackets are read with.
    Memory,
}

impl From<AllocError> for Refused {
    ghost use Rattle.schema_syntax.specs.declared.syntax_fault.Refused.TheVariants.{Memory};

    ghost from_gives = { λ _ refused. refused ≡ Memory };

    fn from(_error: AllocError) -> Refused {
        Refused::Memory
    }
}

/// The tokens of the text, where they reach its end and are those of a schema; else its syntax fault. A text without a
/// fault that has more than `DEEPEST` brackets open at one place is out of memory.
pub fn sentence_of(alloc: Global, text: &str) -> Result<Vec<ShortToken>, Refused>
    ensures scans { IfOk result (λ tokens. Scans text.now tokens.items (length text.now)) }
    ensures placed { IfOk result (λ tokens. All (IsPlaced text.now) tokens.items) }
    ensures sentence { IfOk result (λ tokens. Sentence (kinds_of tokens.items)) }
    ensures shallow { IfOk result (λ tokens. IsTooDeep (kinds_of tokens.items) → ⊥) }
    ensures fault { IfErr result (IsSyntaxRefusal text.now) }
{
    let ShortScan { tokens, at } = scan_short(alloc, text)?;
    match fault_of(alloc, &tokens)? {
        None => {
            if at < text.len() {
                Err(Refused::Fault(SyntaxFault::InvalidToken(at)))
            } else if is_too_deep(&tokens) {
                Err(Refused::Memory)
            } else {
                Ok(tokens)
            }
        }
        Some(Fault { place, expected }) => {
            if place < tokens.len() {
                let fault = unrecognized_token(alloc, text, &tokens, place, expected)?;
                Err(Refused::Fault(fault))
            } else if at < text.len() {
                Err(Refused::Fault(SyntaxFault::InvalidToken(at)))
            } else {
                Err(Refused::Fault(unrecognized_eof(&tokens, expected)))
            }
        }
    }
}

/// The one syntax fault of the text, and None exactly where its tokens reach its end and are those of a schema.
pub fn syntax_fault_of(alloc: Global, text: &str) -> Result<Option<SyntaxFault>, AllocError>
    ensures { IfOk result (λ found. MatchOption found (IsSentence text.now) (IsSyntaxFault text.now)) }
{
    match sentence_of(alloc, text) {
        Ok(_) => Ok(None),
        Err(Refused::Fault(fault)) => Ok(Some(fault)),
        Err(Refused::Memory) => Err(AllocError),
    }
}
