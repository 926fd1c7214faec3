ghost use Rattle.std.specs.Prelude.{◌≡◌, true, Some};
ghost use Rattle.schema_syntax_parser.specs.Reading.{Gives, Done, annotation_turn, annotations_at, value_at};
ghost use Rattle.schema_syntax_parser.specs.Turns.{turn_of};

use crate::front::{is_of, token, word};
use crate::stop::Stop;
use crate::syntax::AnnotationSyntax;
use crate::turns::{Turn, Turns, all};
use cedar_data::List;
use schema_syntax_grammar::TokenKind;
use schema_syntax_tokens::ShortToken;
use std::alloc::Global;

// Annotations, one after the other.
struct AnnotationTurns;

// An annotation, behind its word.
fn value(key: ShortToken, tokens: &[ShortToken]) -> Result<Turn<'_, AnnotationSyntax>, Stop>
    ensures { Gives turn_of result (value_at key tokens.now) }
{
    match tokens {
        [first, rest @ ..] if is_of(first, TokenKind::LParen) => {
            let (value, rest) = token(rest, TokenKind::StringLit)?;
            let value = Some(*value);
            let (_, rest) = token(rest, TokenKind::RParen)?;
            Ok(Turn::More(AnnotationSyntax { key, value }, rest))
        }
        _ => Ok(Turn::More(AnnotationSyntax { key, value: None }, tokens)),
    }
}

impl Turns for AnnotationTurns {
    type Item = AnnotationSyntax;

    ghost turns = { annotation_turn };

    #[tactic(auto, unfolding(crate::specs::Reading::annotation_turn))]
    fn turn(_alloc: Global, tokens: &[ShortToken]) -> Result<Turn<'_, AnnotationSyntax>, Stop> {
        match tokens {
            [first, rest @ ..] if is_of(first, TokenKind::At) => {
                let (key, rest) = word(rest)?;
                value(*key, rest)
            }
            _ => Ok(Turn::Done(tokens)),
        }
    }
}

// Whether no annotation begins here.
#[tactic(auto, unfolding(crate::specs::Reading::annotation_turn))]
fn has_none(tokens: &[ShortToken]) -> bool
    ensures { result ≡ true → annotation_turn tokens.now ≡ Some (Done tokens.now) }
{
    match tokens {
        [first, ..] if is_of(first, TokenKind::At) => false,
        _ => true,
    }
}

// The annotations of an item. Most have none, and no list is begun for these.
#[tactic(auto, using(crate::proofs::Loops::done_at_once), unfolding(crate::specs::Reading::annotations_at))]
#[inline]
pub fn annotations(
    alloc: Global,
    tokens: &[ShortToken],
) -> Result<(List<AnnotationSyntax>, &[ShortToken]), Stop>
    ensures { Gives (λ r. (r.0, r.1.now)) result (annotations_at tokens.now) }
{
    if has_none(tokens) {
        return Ok((List::new(alloc), tokens));
    }
    all::<AnnotationTurns>(alloc, tokens)
}
