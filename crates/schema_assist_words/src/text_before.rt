// What stands before a place of a text, and what may stand behind it.

ghost use Rattle.std.specs.Prelude.{◌≡◌, ◌<◌, length, IfOk, IfErr};
ghost use Rattle.std.specs.List.{All};
ghost use Rattle.schema_syntax_tokens.specs.Scans.{IsPlaced};
ghost use Rattle.schema_syntax_tokens.specs.TokenLists.{kinds_of};
ghost use Rattle.schema_assist_words.specs.Before.{StandBefore, IsWrittenWord};
ghost use Rattle.schema_assist_words.specs.Cuts.{IsCutOf, IsReadTo, IsStandingBehind, IsStandingRefusal};
ghost use Rattle.schema_assist_words.specs.Refusals.{IsAssistRefusal, IsTokenError};

use crate::head::{Cut, cut_head, head_of};
use cedar_data::{List, Loc, Text};
use schema_assist_places::{Standing, Stopped, standing_behind};
use schema_syntax_errors::ParseError;
use schema_syntax_grammar::Fault;
use schema_syntax_tokens::{ShortToken, token_text};
use std::alloc::{AllocError, Global};

/// Why nothing is said of what may stand at a place of a text.
#[derive(Drop)]
pub enum AssistError {
    /// The place is past the end of the text, or inside a character.
    BadPlace,
    /// The text before the place, without the word that is being written there, has this fault: `InvalidToken` or
    /// `UnrecognizedToken`.
    Syntax(ParseError),
    /// Out of memory. A text of 4 GiB or more before the place is answered so.
    Memory,
}

impl From<AllocError> for AssistError {
    ghost use Rattle.schema_assist_words.specs.declared.text_before.AssistError.TheVariants.{Memory};

    ghost from_gives = { λ _ error. error ≡ Memory };

    fn from(_error: AllocError) -> AssistError {
        AssistError::Memory
    }
}

/// What stands before a place of a text.
#[derive(Drop)]
pub struct TextBefore {
    /// Where the word stands that is being written: at the place, and empty there where there is none.
    pub partial: Loc,
    /// The tokens in front of that word.
    pub front: Vec<ShortToken>,
    /// What may stand behind them.
    pub standing: Standing,
}

// The error that the token at the fault's place is.
fn token_error(
    alloc: Global,
    text: &str,
    tokens: &[ShortToken],
    fault: Fault,
) -> Result<ParseError, AllocError>
    requires within { fault.place < length tokens.now }
    requires placed { All (IsPlaced text.now) tokens.now }
    ensures { IfOk result (λ error. IsTokenError text.now tokens.now fault.place fault.expected.items error) }
{
    let Fault { place, expected } = fault;
    let token = &tokens[place];
    let part = token_text(token, text).unwrap();
    let part = Text::from_str(alloc, part)?;
    let loc = token.loc();
    Ok(ParseError::UnrecognizedToken {
        start: loc.start,
        token: part,
        end: loc.end,
        expected: List::from_vec(expected),
    })
}

// What may stand behind the tokens of a head, which are read to the partial word or stop before it; or its fault.
fn standing_of(
    alloc: Global,
    head: &str,
    front: &[ShortToken],
    start: usize,
    stop: usize,
) -> Result<Standing, AssistError>
    requires { IsReadTo head.now front.now start stop }
    ensures ok { IfOk result (λ standing. (stop ≡ start) × IsStandingBehind (kinds_of front.now) standing) }
    ensures refused { IfErr result (IsStandingRefusal head.now) }
{
    match standing_behind(alloc, front) {
        Ok(standing) => {
            if stop < start {
                Err(AssistError::Syntax(ParseError::InvalidToken { location: stop }))
            } else {
                Ok(standing)
            }
        }
        Err(Stopped::Memory) => Err(AssistError::Memory),
        Err(Stopped::Fault(fault)) => match token_error(alloc, head, front, fault) {
            Ok(error) => Err(AssistError::Syntax(error)),
            Err(_) => Err(AssistError::Memory),
        },
    }
}

// What stands before the end of the head, and what may stand behind it.
fn before_end(alloc: Global, head: &str) -> Result<TextBefore, AssistError>
    ensures read { IfOk result (λ before. IsCutOf head.now before.partial before.front.items before.partial.start) }
    ensures standing { IfOk result (λ before. IsStandingBehind (kinds_of before.front.items) before.standing) }
    ensures refused { IfErr result (IsStandingRefusal head.now) }
{
    let Cut {
        partial,
        front,
        stop,
    } = cut_head(alloc, head)?;
    let start = partial.start;
    let standing = standing_of(alloc, head, &front, start, stop)?;
    Ok(TextBefore {
        partial,
        front,
        standing,
    })
}

/// What stands before the place of the text, and what may stand behind it. The text before the place is read once.
pub fn before(alloc: Global, text: &str, at: usize) -> Result<TextBefore, AssistError>
    ensures front { IfOk result (λ before. StandBefore text.now at before.partial before.front.items) }
    ensures placed { IfOk result (λ before. All (IsPlaced text.now) before.front.items) }
    ensures word { IfOk result (λ before. IsWrittenWord text.now before.partial) }
    ensures standing { IfOk result (λ before. IsStandingBehind (kinds_of before.front.items) before.standing) }
    ensures refused { IfErr result (IsAssistRefusal text.now at) }
{
    match head_of(text, at) {
        None => Err(AssistError::BadPlace),
        Some(head) => before_end(alloc, head),
    }
}
