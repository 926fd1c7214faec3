ghost use Rattle.std.specs.Prelude.{[], ◌∷◌, Some};
ghost use Rattle.schema_syntax_grammar.specs.Grammar.{is_ident, is_name_kind};
ghost use Rattle.schema_syntax_grammar.specs.declared.token_kind.TokenKind.TheVariants.{Comma, PathSep, RBracket};
ghost use Rattle.schema_syntax_parser.specs.Reading.{Gives, chain_turn, separated_turn, path_at, ref_at, types_at};
ghost use Rattle.schema_syntax_parser.specs.Reading.{refs_at, parents_at, string_at};

use crate::front::{ident, is_of, name, place, token};
use crate::stop::Stop;
use crate::syntax::PathSyntax;
use crate::turns::{Turn, Turns, all, closed, link, some};
use cedar_data::List;
use schema_syntax_grammar::TokenKind;
use schema_syntax_tokens::ShortToken;
use std::alloc::Global;

// Identifiers with a comma between two.
pub struct Idents;

impl Turns for Idents {
    type Item = ShortToken;

    ghost turns = { chain_turn Comma is_ident };

    #[tactic(auto, unfolding(crate::specs::Reading::chain_turn))]
    fn turn(_alloc: Global, tokens: &[ShortToken]) -> Result<Turn<'_, ShortToken>, Stop> {
        let (item, rest) = ident(tokens)?;
        Ok(link(*item, TokenKind::Comma, rest))
    }
}

// Names with a comma between two.
pub struct Names;

impl Turns for Names {
    type Item = ShortToken;

    ghost turns = { chain_turn Comma is_name_kind };

    #[tactic(auto, unfolding(crate::specs::Reading::chain_turn))]
    fn turn(_alloc: Global, tokens: &[ShortToken]) -> Result<Turn<'_, ShortToken>, Stop> {
        let (item, rest) = name(tokens)?;
        Ok(link(*item, TokenKind::Comma, rest))
    }
}

// The identifiers of a path.
struct PathNames;

impl Turns for PathNames {
    type Item = ShortToken;

    ghost turns = { chain_turn PathSep is_ident };

    #[tactic(auto, unfolding(crate::specs::Reading::chain_turn))]
    fn turn(_alloc: Global, tokens: &[ShortToken]) -> Result<Turn<'_, ShortToken>, Stop> {
        let (item, rest) = ident(tokens)?;
        Ok(link(*item, TokenKind::PathSep, rest))
    }
}

// The names of a reference.
struct RefNames;

impl Turns for RefNames {
    type Item = ShortToken;

    ghost turns = { chain_turn PathSep is_name_kind };

    #[tactic(auto, unfolding(crate::specs::Reading::chain_turn))]
    fn turn(_alloc: Global, tokens: &[ShortToken]) -> Result<Turn<'_, ShortToken>, Stop> {
        let (item, rest) = name(tokens)?;
        Ok(link(*item, TokenKind::PathSep, rest))
    }
}

// A path, and the tokens behind it.
#[tactic(auto, using(crate::proofs::Loops::chain_goes_on), unfolding(crate::specs::Reading::path_at))]
pub fn path(alloc: Global, tokens: &[ShortToken]) -> Result<(PathSyntax, &[ShortToken]), Stop>
    ensures { Gives (λ r. (r.0, r.1.now)) result (path_at tokens.now) }
{
    let (names, rest) = some::<PathNames>(alloc, tokens)?;
    let loc = place(tokens, rest);
    Ok((PathSyntax { names, loc }, rest))
}

// A reference, and the tokens behind it.
#[tactic(auto, using(crate::proofs::Loops::chain_goes_on), unfolding(crate::specs::Reading::ref_at))]
fn reference(alloc: Global, tokens: &[ShortToken]) -> Result<(PathSyntax, &[ShortToken]), Stop>
    ensures { Gives (λ r. (r.0, r.1.now)) result (ref_at tokens.now) }
{
    let (names, rest) = some::<RefNames>(alloc, tokens)?;
    let loc = place(tokens, rest);
    Ok((PathSyntax { names, loc }, rest))
}

// Paths in brackets, behind the opening one.
struct Paths;

impl Turns for Paths {
    type Item = PathSyntax;

    ghost turns = { separated_turn RBracket path_at };

    #[tactic(auto, unfolding(crate::specs::Reading::separated_turn))]
    fn turn(alloc: Global, tokens: &[ShortToken]) -> Result<Turn<'_, PathSyntax>, Stop> {
        match tokens {
            [first, rest @ ..] if is_of(first, TokenKind::RBracket) => Ok(Turn::Done(rest)),
            _ => {
                let (item, rest) = path(alloc, tokens)?;
                closed(item, TokenKind::RBracket, rest)
            }
        }
    }
}

// References in brackets, behind the opening one.
struct Refs;

impl Turns for Refs {
    type Item = PathSyntax;

    ghost turns = { separated_turn RBracket ref_at };

    #[tactic(auto, unfolding(crate::specs::Reading::separated_turn))]
    fn turn(alloc: Global, tokens: &[ShortToken]) -> Result<Turn<'_, PathSyntax>, Stop> {
        match tokens {
            [first, rest @ ..] if is_of(first, TokenKind::RBracket) => Ok(Turn::Done(rest)),
            _ => {
                let (item, rest) = reference(alloc, tokens)?;
                closed(item, TokenKind::RBracket, rest)
            }
        }
    }
}

// Strings in brackets, behind the opening one.
pub struct Strings;

impl Turns for Strings {
    type Item = ShortToken;

    ghost turns = { separated_turn RBracket string_at };

    #[tactic(auto, unfolding(crate::specs::Reading::separated_turn))]
    fn turn(_alloc: Global, tokens: &[ShortToken]) -> Result<Turn<'_, ShortToken>, Stop> {
        match tokens {
            [first, rest @ ..] if is_of(first, TokenKind::RBracket) => Ok(Turn::Done(rest)),
            _ => {
                let (item, rest) = token(tokens, TokenKind::StringLit)?;
                closed(*item, TokenKind::RBracket, rest)
            }
        }
    }
}

// The list of one item.
fn only(alloc: Global, item: PathSyntax) -> Result<List<PathSyntax>, Stop>
    ensures { Gives (λ list. list) result (Some (item ∷ [])) }
{
    let mut list = List::new(alloc);
    list.push(item)?;
    Ok(list)
}

// A path, or paths in brackets.
#[tactic(auto, unfolding(crate::specs::Reading::types_at))]
pub fn types(
    alloc: Global,
    tokens: &[ShortToken],
) -> Result<(List<PathSyntax>, &[ShortToken]), Stop>
    ensures { Gives (λ r. (r.0, r.1.now)) result (types_at tokens.now) }
{
    match tokens {
        [first, rest @ ..] if is_of(first, TokenKind::LBracket) => all::<Paths>(alloc, rest),
        _ => {
            let (item, rest) = path(alloc, tokens)?;
            Ok((only(alloc, item)?, rest))
        }
    }
}

// A reference, or references in brackets.
#[tactic(auto, unfolding(crate::specs::Reading::refs_at))]
fn references(
    alloc: Global,
    tokens: &[ShortToken],
) -> Result<(List<PathSyntax>, &[ShortToken]), Stop>
    ensures { Gives (λ r. (r.0, r.1.now)) result (refs_at tokens.now) }
{
    match tokens {
        [first, rest @ ..] if is_of(first, TokenKind::LBracket) => all::<Refs>(alloc, rest),
        _ => {
            let (item, rest) = reference(alloc, tokens)?;
            Ok((only(alloc, item)?, rest))
        }
    }
}

// The parents of an entity type, where `in` stands.
pub fn parents(
    alloc: Global,
    tokens: &[ShortToken],
) -> Result<(List<PathSyntax>, &[ShortToken]), Stop>
    ensures { Gives (λ r. (r.0, r.1.now)) result (parents_at types_at tokens.now) }
{
    match tokens {
        [first, rest @ ..] if is_of(first, TokenKind::KwIn) => types(alloc, rest),
        _ => Ok((List::new(alloc), tokens)),
    }
}

// The parents of an action, where `in` stands.
pub fn action_parents(
    alloc: Global,
    tokens: &[ShortToken],
) -> Result<(List<PathSyntax>, &[ShortToken]), Stop>
    ensures { Gives (λ r. (r.0, r.1.now)) result (parents_at refs_at tokens.now) }
{
    match tokens {
        [first, rest @ ..] if is_of(first, TokenKind::KwIn) => references(alloc, rest),
        _ => Ok((List::new(alloc), tokens)),
    }
}
