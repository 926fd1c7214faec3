ghost use Rattle.std.specs.Prelude.{◌≡◌, ◌∷◌, length};
ghost use Rattle.schema_syntax_parser.specs.Reading.{Gives, mark_at, set_step, whole_type_step, type_at, attr_step};
ghost use Rattle.schema_syntax_parser.specs.Reading.{attrs_at, separated_turn, record_at, shape_at, tags_at};
ghost use Rattle.schema_syntax_parser.specs.Turns.{turn_of};
ghost use Rattle.schema_syntax_grammar.specs.declared.token_kind.TokenKind.TheVariants.{RBrace};

use crate::annotations::annotations;
use crate::front::{is_of, name, place, token};
use crate::paths::path;
use crate::stop::Stop;
use crate::syntax::{AttrSyntax, TypeSyntax};
use crate::turns::{Turn, closed, push_item};
use cedar_data::{Boxed, List, Loc};
use schema_syntax_grammar::TokenKind;
use schema_syntax_tokens::ShortToken;
use std::alloc::Global;

// Whether no question mark stands here, and what is behind it.
#[tactic(auto, unfolding(crate::specs::Reading::mark_at))]
fn mark(tokens: &[ShortToken]) -> (bool, &[ShortToken])
    ensures { (result.0, result.1.now) ≡ mark_at tokens.now }
{
    match tokens {
        [first, rest @ ..] if is_of(first, TokenKind::Question) => (false, rest),
        _ => (true, tokens),
    }
}

// A type that begins with the word for a set.
#[tactic(auto, unfolding(crate::specs::Reading::set_step))]
#[cycle(types)]
fn set<'a>(
    alloc: Global,
    depth: usize,
    tokens: &'a [ShortToken],
    first: &ShortToken,
    rest: &'a [ShortToken],
) -> Result<(TypeSyntax, &'a [ShortToken]), Stop>
    requires { tokens.now ≡ first.now ∷ rest.now }
    ensures { Gives (λ r. (r.0, r.1.now)) result (set_step (type_at depth) first.now rest.now) }
{
    match rest {
        [open, after @ ..] if is_of(open, TokenKind::Less) => {
            let (element, after) = ty(alloc, depth, after)?;
            let (_, after) = token(after, TokenKind::Greater)?;
            let element = Boxed::new(alloc, element)?;
            Ok((TypeSyntax::Set(element, place(tokens, after)), after))
        }
        _ => {
            let (path, after) = path(alloc, tokens)?;
            Ok((TypeSyntax::Path(path), after))
        }
    }
}

// A type, whose parts are nested at most so deep.
#[tactic(auto, unfolding(crate::specs::Reading::whole_type_step))]
#[cycle(types)]
fn type_of_parts(
    alloc: Global,
    depth: usize,
    tokens: &[ShortToken],
) -> Result<(TypeSyntax, &[ShortToken]), Stop>
    ensures { Gives (λ r. (r.0, r.1.now)) result (whole_type_step (type_at depth) (attrs_at depth) tokens.now) }
{
    match tokens {
        [] => Err(Stop::Mismatch),
        [first, rest @ ..] if is_of(first, TokenKind::LBrace) => {
            let (attrs, after) = attrs(alloc, depth, rest)?;
            Ok((TypeSyntax::Record(attrs, place(tokens, after)), after))
        }
        [first, rest @ ..] if is_of(first, TokenKind::KwSet) => {
            set(alloc, depth, tokens, first, rest)
        }
        _ => {
            let (path, after) = path(alloc, tokens)?;
            Ok((TypeSyntax::Path(path), after))
        }
    }
}

// A type, nested at most so deep.
#[cycle(types)]
fn ty(
    alloc: Global,
    depth: usize,
    tokens: &[ShortToken],
) -> Result<(TypeSyntax, &[ShortToken]), Stop>
    ensures { Gives (λ r. (r.0, r.1.now)) result (type_at depth tokens.now) }
{
    if depth == 0 {
        return Err(Stop::Mismatch);
    }
    type_of_parts(alloc, depth - 1, tokens)
}

// An attribute.
#[tactic(auto, unfolding(crate::specs::Reading::attr_step))]
#[cycle(types)]
fn attr(
    alloc: Global,
    depth: usize,
    tokens: &[ShortToken],
) -> Result<(AttrSyntax, &[ShortToken]), Stop>
    ensures { Gives (λ r. (r.0, r.1.now)) result (attr_step (type_at depth) tokens.now) }
{
    let (annotations, start) = annotations(alloc, tokens)?;
    let (name, rest) = name(start)?;
    let name = *name;
    let (required, rest) = mark(rest);
    let (_, rest) = token(rest, TokenKind::Colon)?;
    let (ty, rest) = ty(alloc, depth, rest)?;
    let loc = place(start, rest);
    Ok((
        AttrSyntax {
            annotations,
            name,
            required,
            ty,
            loc,
        },
        rest,
    ))
}

// One turn of the attributes: the closing brace, or an attribute before it or before a comma.
#[tactic(auto, unfolding(crate::specs::Reading::separated_turn))]
#[cycle(types)]
fn attr_turn(
    alloc: Global,
    depth: usize,
    tokens: &[ShortToken],
) -> Result<Turn<'_, AttrSyntax>, Stop>
    ensures { Gives turn_of result (separated_turn RBrace (attr_step (type_at depth)) tokens.now) }
{
    match tokens {
        [first, rest @ ..] if is_of(first, TokenKind::RBrace) => Ok(Turn::Done(rest)),
        _ => {
            let (item, rest) = attr(alloc, depth, tokens)?;
            closed(item, TokenKind::RBrace, rest)
        }
    }
}

// Attributes, and the closing brace.
#[cycle(types)]
fn attrs(
    alloc: Global,
    depth: usize,
    tokens: &[ShortToken],
) -> Result<(List<AttrSyntax>, &[ShortToken]), Stop>
    ensures { Gives (λ r. (r.0, r.1.now)) result (attrs_at depth tokens.now) }
{
    let mut attrs = Vec::new(alloc);
    let mut rest = tokens;
    let mut left = depth;
    while left > 0 {
        left -= 1;
        match attr_turn(alloc, left, rest)? {
            Turn::Done(after) => return Ok((List::from_vec(attrs), after)),
            Turn::Last(attr, after) => {
                push_item(&mut attrs, attr)?;
                return Ok((List::from_vec(attrs), after));
            }
            Turn::More(attr, after) => {
                attrs.push(attr)?;
                rest = after;
            }
        }
    }
    Err(Stop::Mismatch)
}

// A type, which other tokens follow.
pub fn whole_type(alloc: Global, tokens: &[ShortToken]) -> Result<(TypeSyntax, &[ShortToken]), Stop>
    ensures { Gives (λ r. (r.0, r.1.now)) result (type_at (length tokens.now) tokens.now) }
{
    ty(alloc, tokens.len(), tokens)
}

// Attributes in braces, and the place of the braces.
#[tactic(auto, unfolding(crate::specs::Reading::record_at))]
pub fn braces(
    alloc: Global,
    tokens: &[ShortToken],
) -> Result<(List<AttrSyntax>, Loc, &[ShortToken]), Stop>
    ensures { Gives (λ r. ((r.0, r.1), r.2.now)) result (record_at tokens.now) }
{
    let (_, rest) = token(tokens, TokenKind::LBrace)?;
    let (attrs, rest) = attrs(alloc, tokens.len(), rest)?;
    let loc = place(tokens, rest);
    Ok((attrs, loc, rest))
}

// The attributes of an entity type, where a record stands.
#[tactic(auto, unfolding(crate::specs::Reading::shape_at))]
pub fn shape(
    alloc: Global,
    tokens: &[ShortToken],
) -> Result<(Option<(List<AttrSyntax>, Loc)>, &[ShortToken]), Stop>
    ensures { Gives (λ r. (r.0, r.1.now)) result (shape_at tokens.now) }
{
    match tokens {
        [first, after @ ..] if is_of(first, TokenKind::Equals) => {
            let (attrs, loc, rest) = braces(alloc, after)?;
            Ok((Some((attrs, loc)), rest))
        }
        [first, ..] if is_of(first, TokenKind::LBrace) => {
            let (attrs, loc, rest) = braces(alloc, tokens)?;
            Ok((Some((attrs, loc)), rest))
        }
        _ => Ok((None, tokens)),
    }
}

// The type of the tags, where they are.
#[tactic(auto, unfolding(crate::specs::Reading::tags_at))]
pub fn tags(
    alloc: Global,
    tokens: &[ShortToken],
) -> Result<(Option<Boxed<TypeSyntax>>, &[ShortToken]), Stop>
    ensures { Gives (λ r. (r.0, r.1.now)) result (tags_at tokens.now) }
{
    match tokens {
        [first, after @ ..] if is_of(first, TokenKind::KwTags) => {
            let (ty, rest) = whole_type(alloc, after)?;
            let ty = Boxed::new(alloc, ty)?;
            Ok((Some(ty), rest))
        }
        _ => Ok((None, tokens)),
    }
}
