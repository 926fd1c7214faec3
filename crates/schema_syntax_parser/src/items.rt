ghost use Rattle.std.specs.Prelude.{◌≤◌, length};
ghost use Rattle.schema_syntax_parser.specs.Reading.{Gives, declared_at, decl_turn, namespace_at, outside_at};
ghost use Rattle.schema_syntax_parser.specs.Reading.{item_body_at, item_at};

use crate::annotations::annotations;
use crate::decls::decl;
use crate::front::{is_of, place, token};
use crate::paths::path;
use crate::stop::Stop;
use crate::syntax::{AnnotationSyntax, DeclaredSyntax, ItemSyntax};
use crate::turns::{Turn, Turns, all_in};
use cedar_data::List;
use schema_syntax_grammar::TokenKind;
use schema_syntax_tokens::ShortToken;
use std::alloc::Global;

// A declaration with its annotations.
#[tactic(auto, unfolding(crate::specs::Reading::declared_at))]
fn declared(alloc: Global, tokens: &[ShortToken]) -> Result<(DeclaredSyntax, &[ShortToken]), Stop>
    ensures { Gives (λ r. (r.0, r.1.now)) result (declared_at tokens.now) }
{
    let (annotations, start) = annotations(alloc, tokens)?;
    let (decl, rest) = decl(alloc, start)?;
    let loc = place(start, rest);
    Ok((
        DeclaredSyntax {
            annotations,
            decl,
            loc,
        },
        rest,
    ))
}

// The declarations of a namespace, behind its opening brace.
struct Decls;

impl Turns for Decls {
    type Item = DeclaredSyntax;

    ghost turns = { decl_turn };

    #[tactic(auto, unfolding(crate::specs::Reading::decl_turn))]
    fn turn(alloc: Global, tokens: &[ShortToken]) -> Result<Turn<'_, DeclaredSyntax>, Stop> {
        match tokens {
            [first, rest @ ..] if is_of(first, TokenKind::RBrace) => Ok(Turn::Done(rest)),
            _ => {
                let (item, rest) = declared(alloc, tokens)?;
                Ok(Turn::More(item, rest))
            }
        }
    }
}

// How many declarations end before the brace that closes their namespace.
fn count_decls(tokens: &[ShortToken]) -> usize
    ensures { result ≤ length tokens.now }
{
    let mut count = 0usize;
    let mut depth = 0usize;
    for token in tokens {
        match token.kind() {
            TokenKind::Semi => count = count.saturating_add(1),
            TokenKind::LBrace => depth = depth.saturating_add(1),
            TokenKind::RBrace => {
                if depth == 0 {
                    return count;
                }
                depth -= 1;
            }
            _ => {}
        }
    }
    count
}

// A namespace, behind its annotations and its first word, which begins the first tokens.
#[tactic(auto, unfolding(crate::specs::Reading::namespace_at))]
fn namespace<'a>(
    alloc: Global,
    annotations: List<AnnotationSyntax>,
    whole: &'a [ShortToken],
    tokens: &'a [ShortToken],
) -> Result<(ItemSyntax, &'a [ShortToken]), Stop>
    ensures { Gives (λ r. (r.0, r.1.now)) result (namespace_at annotations whole.now tokens.now) }
{
    let (path, rest) = path(alloc, tokens)?;
    let (_, rest) = token(rest, TokenKind::LBrace)?;
    let (decls, rest) = all_in::<Decls>(alloc, count_decls(rest), rest)?;
    let loc = place(whole, rest);
    Ok((ItemSyntax::Namespace(annotations, path, decls, loc), rest))
}

// A declaration in no namespace, behind its annotations.
#[tactic(auto, unfolding(crate::specs::Reading::outside_at))]
fn outside(
    alloc: Global,
    annotations: List<AnnotationSyntax>,
    tokens: &[ShortToken],
) -> Result<(ItemSyntax, &[ShortToken]), Stop>
    ensures { Gives (λ r. (r.0, r.1.now)) result (outside_at annotations tokens.now) }
{
    let (decl, rest) = decl(alloc, tokens)?;
    let loc = place(tokens, rest);
    let item = ItemSyntax::Decl(DeclaredSyntax {
        annotations,
        decl,
        loc,
    });
    Ok((item, rest))
}

// An item, behind its annotations.
fn item_body(
    alloc: Global,
    annotations: List<AnnotationSyntax>,
    tokens: &[ShortToken],
) -> Result<(ItemSyntax, &[ShortToken]), Stop>
    ensures { Gives (λ r. (r.0, r.1.now)) result (item_body_at annotations tokens.now) }
{
    match tokens {
        [first, rest @ ..] if is_of(first, TokenKind::KwNamespace) => {
            namespace(alloc, annotations, tokens, rest)
        }
        _ => outside(alloc, annotations, tokens),
    }
}

// An item.
#[tactic(auto, unfolding(crate::specs::Reading::item_at))]
pub fn item(alloc: Global, tokens: &[ShortToken]) -> Result<(ItemSyntax, &[ShortToken]), Stop>
    ensures { Gives (λ r. (r.0, r.1.now)) result (item_at tokens.now) }
{
    let (annotations, rest) = annotations(alloc, tokens)?;
    item_body(alloc, annotations, rest)
}
