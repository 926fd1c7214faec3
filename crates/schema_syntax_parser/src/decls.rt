ghost use Rattle.schema_syntax_parser.specs.Reading.{Gives, enum_at, standard_at, entity_body_at, entity_at};
ghost use Rattle.schema_syntax_parser.specs.Reading.{external_entity_at, external_action_at, action_at, common_at};
ghost use Rattle.schema_syntax_parser.specs.Reading.{external_at, decl_at};

use crate::actions::applies;
use crate::front::{any, ident, is_of, place, token};
use crate::paths::{Idents, Names, Strings, action_parents, parents};
use crate::stop::Stop;
use crate::syntax::DeclSyntax;
use crate::turns::{all, some};
use crate::types::{shape, tags, whole_type};
use cedar_data::NonEmpty;
use schema_syntax_grammar::TokenKind;
use schema_syntax_tokens::ShortToken;
use std::alloc::Global;

// The body of an enumerated entity type, behind `enum`.
#[tactic(auto, unfolding(crate::specs::Reading::enum_at))]
fn choices(
    alloc: Global,
    names: NonEmpty<ShortToken>,
    tokens: &[ShortToken],
) -> Result<(DeclSyntax, &[ShortToken]), Stop>
    ensures { Gives (λ r. (r.0, r.1.now)) result (enum_at names tokens.now) }
{
    let (_, rest) = token(tokens, TokenKind::LBracket)?;
    let (choices, rest) = all::<Strings>(alloc, rest)?;
    let brackets = place(tokens, rest);
    let (_, rest) = token(rest, TokenKind::Semi)?;
    Ok((
        DeclSyntax::Enum {
            names,
            choices,
            brackets,
        },
        rest,
    ))
}

// The body of another entity type, behind its names.
#[tactic(auto, unfolding(crate::specs::Reading::standard_at))]
fn standard(
    alloc: Global,
    names: NonEmpty<ShortToken>,
    tokens: &[ShortToken],
) -> Result<(DeclSyntax, &[ShortToken]), Stop>
    ensures { Gives (λ r. (r.0, r.1.now)) result (standard_at names tokens.now) }
{
    let (parents, rest) = parents(alloc, tokens)?;
    let (shape, rest) = shape(alloc, rest)?;
    let (tags, rest) = tags(alloc, rest)?;
    let (_, rest) = token(rest, TokenKind::Semi)?;
    Ok((
        DeclSyntax::Entity {
            names,
            parents,
            shape,
            tags,
        },
        rest,
    ))
}

// The body of an entity type, behind its names.
fn entity_body(
    alloc: Global,
    names: NonEmpty<ShortToken>,
    tokens: &[ShortToken],
) -> Result<(DeclSyntax, &[ShortToken]), Stop>
    ensures { Gives (λ r. (r.0, r.1.now)) result (entity_body_at names tokens.now) }
{
    match tokens {
        [first, rest @ ..] if is_of(first, TokenKind::KwEnum) => choices(alloc, names, rest),
        _ => standard(alloc, names, tokens),
    }
}

// An entity type, behind `entity`.
#[tactic(auto, using(crate::proofs::Loops::chain_goes_on), unfolding(crate::specs::Reading::entity_at))]
fn entity(alloc: Global, tokens: &[ShortToken]) -> Result<(DeclSyntax, &[ShortToken]), Stop>
    ensures { Gives (λ r. (r.0, r.1.now)) result (entity_at tokens.now) }
{
    let (names, rest) = some::<Idents>(alloc, tokens)?;
    entity_body(alloc, names, rest)
}

// An external entity type, behind `entity`.
#[tactic(auto, using(crate::proofs::Loops::chain_goes_on), unfolding(crate::specs::Reading::external_entity_at))]
fn external_entity(
    alloc: Global,
    tokens: &[ShortToken],
) -> Result<(DeclSyntax, &[ShortToken]), Stop>
    ensures { Gives (λ r. (r.0, r.1.now)) result (external_entity_at tokens.now) }
{
    let (names, rest) = some::<Idents>(alloc, tokens)?;
    let (parents, rest) = parents(alloc, rest)?;
    let (_, rest) = token(rest, TokenKind::Semi)?;
    Ok((DeclSyntax::ExternalEntity { names, parents }, rest))
}

// An external action, behind `action`.
#[tactic(auto, using(crate::proofs::Loops::chain_goes_on), unfolding(crate::specs::Reading::external_action_at))]
fn external_action(
    alloc: Global,
    tokens: &[ShortToken],
) -> Result<(DeclSyntax, &[ShortToken]), Stop>
    ensures { Gives (λ r. (r.0, r.1.now)) result (external_action_at tokens.now) }
{
    let (names, rest) = some::<Names>(alloc, tokens)?;
    let (parents, rest) = action_parents(alloc, rest)?;
    let (_, rest) = token(rest, TokenKind::Semi)?;
    Ok((DeclSyntax::ExternalAction { names, parents }, rest))
}

// An action, behind `action`.
#[tactic(auto, using(crate::proofs::Loops::chain_goes_on), unfolding(crate::specs::Reading::action_at))]
fn action(alloc: Global, tokens: &[ShortToken]) -> Result<(DeclSyntax, &[ShortToken]), Stop>
    ensures { Gives (λ r. (r.0, r.1.now)) result (action_at tokens.now) }
{
    let (names, rest) = some::<Names>(alloc, tokens)?;
    let (parents, rest) = action_parents(alloc, rest)?;
    let (applies, rest) = applies(alloc, rest)?;
    let (_, rest) = token(rest, TokenKind::Semi)?;
    Ok((
        DeclSyntax::Action {
            names,
            parents,
            applies,
        },
        rest,
    ))
}

// A common type, behind `type`.
#[tactic(auto, unfolding(crate::specs::Reading::common_at))]
fn common(alloc: Global, tokens: &[ShortToken]) -> Result<(DeclSyntax, &[ShortToken]), Stop>
    ensures { Gives (λ r. (r.0, r.1.now)) result (common_at tokens.now) }
{
    let (name, rest) = ident(tokens)?;
    let name = *name;
    let (_, rest) = token(rest, TokenKind::Equals)?;
    let (ty, rest) = whole_type(alloc, rest)?;
    let (_, rest) = token(rest, TokenKind::Semi)?;
    Ok((DeclSyntax::Common { name, ty }, rest))
}

// An external declaration, behind `external`.
#[tactic(auto, unfolding(crate::specs::Reading::external_at))]
fn external(alloc: Global, tokens: &[ShortToken]) -> Result<(DeclSyntax, &[ShortToken]), Stop>
    ensures { Gives (λ r. (r.0, r.1.now)) result (external_at tokens.now) }
{
    let (word, rest) = any(tokens)?;
    match word.kind() {
        TokenKind::KwEntity => external_entity(alloc, rest),
        TokenKind::KwAction => external_action(alloc, rest),
        _ => Err(Stop::Mismatch),
    }
}

// A declaration, behind its annotations.
#[tactic(auto, unfolding(crate::specs::Reading::decl_at))]
pub fn decl(alloc: Global, tokens: &[ShortToken]) -> Result<(DeclSyntax, &[ShortToken]), Stop>
    ensures { Gives (λ r. (r.0, r.1.now)) result (decl_at tokens.now) }
{
    let (word, rest) = any(tokens)?;
    match word.kind() {
        TokenKind::KwEntity => entity(alloc, rest),
        TokenKind::KwExternal => external(alloc, rest),
        TokenKind::KwAction => action(alloc, rest),
        TokenKind::KwType => common(alloc, rest),
        _ => Err(Stop::Mismatch),
    }
}
