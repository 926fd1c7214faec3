ghost use Rattle.std.specs.Prelude.{◌≡◌, ◌≤◌, ◌<◌, [], length, drop, IfOk, IfErr, IfSome, MatchOption};
ghost use Rattle.std.specs.List.{All};
ghost use Rattle.schema_syntax_grammar.specs.Grammar.{Sentence};
ghost use Rattle.schema_syntax_tokens.specs.Scans.{Scans, IsPlaced};
ghost use Rattle.schema_syntax_tokens.specs.TokenLists.{kinds_of};
ghost use Rattle.schema_syntax_parser.specs.Syntax.{IsFirstItem};
ghost use Rattle.schema_syntax_reader.specs.LawfulTrees.{IsLawfulTree, IsStopOf};

use crate::items::item;
use crate::stopped::Stopped;
use cedar_data::List;
use schema_syntax_parser::{ItemSyntax, next_item};
use schema_syntax_tokens::ShortToken;
use schema_syntax_tree::Schema;
use std::alloc::{AllocError, Global};

// The first item of the tokens from a place on, whose kinds are those of a schema, and the place behind it; `None`
// exactly where there is no token.
fn next_from(
    alloc: Global,
    tokens: &[ShortToken],
    at: usize,
) -> Result<Option<(ItemSyntax, usize)>, AllocError>
    requires in_range { at ≤ length tokens.now }
    requires sentence { Sentence (kinds_of (drop at tokens.now)) }
    ensures item { IfOk result (λ next. MatchOption next (drop at tokens.now ≡ [])
        (λ n. IsFirstItem (drop at tokens.now) n.0 (drop n.1 tokens.now))) }
    ensures behind { IfOk result (λ next. IfSome next (λ n. (at < n.1) × (n.1 ≤ length tokens.now))) }
{
    let (_, rest) = tokens.split_at(at);
    match next_item(alloc, rest)? {
        None => Ok(None),
        Some((item, after)) => Ok(Some((item, tokens.len() - after.len()))),
    }
}

// The tokens from a place on, and where they begin among those that are kept: once they are less than a quarter of
// these, the others are let go. So moving them takes a third of the room of all, and not as much again.
fn kept_from(mut tokens: Vec<ShortToken>, at: usize) -> Result<(Vec<ShortToken>, usize), AllocError>
    requires { at ≤ length tokens.items }
    ensures same { IfOk result (λ r. drop r.1 r.0.items ≡ drop at tokens.items) }
    ensures in_range { IfOk result (λ r. r.1 ≤ length r.0.items) }
{
    if at <= tokens.len() / 4 * 3 {
        return Ok((tokens, at));
    }
    let rest = tokens.split_off(at)?;
    Ok((rest, 0))
}

/// The tree of the tokens of a text, which are those of a schema, or of their user faults the one that ends first. The
/// tokens are let go as they are read.
pub fn tree_of_tokens<'a>(
    alloc: Global,
    text: &'a str,
    tokens: Vec<ShortToken>,
) -> Result<Schema<'a>, Stopped>
    requires scans { Scans text.now tokens.items (length text.now) }
    requires placed { All (IsPlaced text.now) tokens.items }
    requires sentence { Sentence (kinds_of tokens.items) }
    ensures tree { IfOk result (IsLawfulTree text.now tokens.items) }
    ensures fault { IfErr result (IsStopOf text.now tokens.items) }
{
    let mut namespaces = Vec::new(alloc);
    let mut kept = tokens;
    let mut at = 0;
    while let Some((raw, behind)) = next_from(alloc, kept.as_slice(), at)? {
        let (others, start) = kept_from(kept, behind)?;
        kept = others;
        at = start;
        let namespace = item(alloc, text, raw)?;
        namespaces.push(namespace)?;
    }
    Ok(List::from_vec(namespaces))
}
