ghost use Rattle.schema_syntax_grammar.specs.declared.token_kind.TokenKind.TheVariants.{RBrace};
ghost use Rattle.schema_syntax_parser.specs.Reading.{Gives, separated_turn, context_at, app_at, applies_at};

use crate::front::{any, is_of, is_role, place, token};
use crate::paths::{path, types};
use crate::stop::Stop;
use crate::syntax::AppSyntax;
use crate::turns::{Turn, Turns, all, closed};
use crate::types::braces;
use cedar_data::{List, Loc};
use schema_syntax_grammar::TokenKind;
use schema_syntax_tokens::ShortToken;
use std::alloc::Global;

// What `context` is given, in the member that begins at the first tokens.
#[tactic(auto, unfolding(crate::specs::Reading::context_at))]
fn context<'a>(
    alloc: Global,
    whole: &'a [ShortToken],
    tokens: &'a [ShortToken],
) -> Result<(AppSyntax, &'a [ShortToken]), Stop>
    ensures { Gives (λ r. (r.0, r.1.now)) result (context_at whole.now tokens.now) }
{
    match tokens {
        [] => Err(Stop::Mismatch),
        [first, ..] if is_of(first, TokenKind::LBrace) => {
            let (attrs, loc, rest) = braces(alloc, tokens)?;
            Ok((
                AppSyntax::ContextRecord(attrs, loc, place(whole, rest)),
                rest,
            ))
        }
        _ => {
            let (path, rest) = path(alloc, tokens)?;
            Ok((AppSyntax::ContextPath(path, place(whole, rest)), rest))
        }
    }
}

// A member of an `appliesTo` block.
#[tactic(auto, unfolding(crate::specs::Reading::app_at))]
fn app(alloc: Global, tokens: &[ShortToken]) -> Result<(AppSyntax, &[ShortToken]), Stop>
    ensures { Gives (λ r. (r.0, r.1.now)) result (app_at tokens.now) }
{
    let (word, rest) = any(tokens)?;
    let word = *word;
    let (_, rest) = token(rest, TokenKind::Colon)?;
    if is_role(word.kind()) {
        let (types, rest) = types(alloc, rest)?;
        Ok((AppSyntax::Types(word, types, place(tokens, rest)), rest))
    } else if is_of(&word, TokenKind::KwContext) {
        context(alloc, tokens, rest)
    } else {
        Err(Stop::Mismatch)
    }
}

// The members of an `appliesTo` block, behind its opening brace.
struct Apps;

impl Turns for Apps {
    type Item = AppSyntax;

    ghost turns = { separated_turn RBrace app_at };

    #[tactic(auto, unfolding(crate::specs::Reading::separated_turn))]
    fn turn(alloc: Global, tokens: &[ShortToken]) -> Result<Turn<'_, AppSyntax>, Stop> {
        match tokens {
            [first, rest @ ..] if is_of(first, TokenKind::RBrace) => Ok(Turn::Done(rest)),
            _ => {
                let (item, rest) = app(alloc, tokens)?;
                closed(item, TokenKind::RBrace, rest)
            }
        }
    }
}

// The `appliesTo` block, where it stands.
#[tactic(auto, unfolding(crate::specs::Reading::applies_at))]
pub fn applies(
    alloc: Global,
    tokens: &[ShortToken],
) -> Result<(Option<(List<AppSyntax>, Loc)>, &[ShortToken]), Stop>
    ensures { Gives (λ r. (r.0, r.1.now)) result (applies_at tokens.now) }
{
    match tokens {
        [first, after @ ..] if is_of(first, TokenKind::KwAppliesTo) => {
            let (_, rest) = token(after, TokenKind::LBrace)?;
            let (apps, rest) = all::<Apps>(alloc, rest)?;
            Ok((Some((apps, place(after, rest))), rest))
        }
        _ => Ok((None, tokens)),
    }
}
