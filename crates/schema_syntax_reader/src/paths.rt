//! What paths and references stand for, or of their user faults the one that ends first.
ghost use Rattle.std.specs.Prelude.{◌≡◌, ◌++◌, ◌∷◌, [], Some, unwrap_or};
ghost use Rattle.std.specs.List.{All, AllZip};
ghost use Rattle.schema_syntax_parser.specs.Syntax.{IsPath, IsRef};
ghost use Rattle.schema_syntax_reader.specs.Sites.{names_sites, path_sites, word};
ghost use Rattle.schema_syntax_reader.specs.Placed.{IsScanned, IsPlacedSite};
ghost use Rattle.schema_syntax_reader.specs.Readings.{Reads};
ghost use Rattle.schema_syntax_reader.specs.Trees.{IsId, IsPathOf, IsTypeOfRef, IsRefOf};

use crate::names::{BareIds, id, name};
use crate::parts::{Part, some};
use crate::stopped::Stopped;
use cedar_data::{Loc, Node, NonEmpty};
use schema_syntax_parser::PathSyntax;
use schema_syntax_tokens::{ShortToken, place_from};
use schema_syntax_tree::{Path, QualName};
use std::alloc::Global;

// The path of the names, which has this place.
fn path_of_names<'a>(
    alloc: Global,
    text: &'a str,
    names: NonEmpty<ShortToken>,
    loc: Loc,
) -> Result<Path<'a>, Stopped>
    requires { All (λ t. IsPlacedSite text.now (word t)) names }
    ensures { Reads text.now (names_sites names) (λ path. AllZip (IsId text.now) names path.ids
        × (path.loc ≡ Some loc)) result }
{
    let ids = some::<BareIds>(alloc, text, names)?;
    Ok(Path::of_ids(ids, Some(loc)))
}

/// The path that a syntax of it stands for, which was scanned from the text, or the fault of the first of its sites
/// that has one.
pub fn path<'a>(alloc: Global, text: &'a str, raw: PathSyntax) -> Result<Path<'a>, Stopped>
    requires { IsScanned IsPath text.now raw }
    ensures { Reads text.now (path_sites raw) (IsPathOf text.now raw) result }
{
    let (names, loc) = raw.into_parts();
    path_of_names(alloc, text, names, loc)
}

// The names before the last, where there are some, and the last.
fn split_last(names: NonEmpty<ShortToken>) -> (Option<NonEmpty<ShortToken>>, ShortToken)
    ensures { names ≡ unwrap_or result.0 [] ++ result.1 ∷ [] }
{
    let (first, mut others) = names.into_parts();
    match others.pop() {
        None => (None, first),
        Some(last) => (Some(NonEmpty::from_parts(first, others)), last),
    }
}

// The path of a reference's type, where one stands before the id.
fn type_of_reference<'a>(
    alloc: Global,
    text: &'a str,
    names: Option<NonEmpty<ShortToken>>,
) -> Result<Option<Path<'a>>, Stopped>
    requires { All (λ t. IsPlacedSite text.now (word t)) (unwrap_or names []) }
    ensures { Reads text.now (names_sites (unwrap_or names [])) (IsTypeOfRef text.now (unwrap_or names [])) result }
{
    match names {
        None => Ok(None),
        Some(names) => {
            let (first, others) = names.parts();
            let loc = place_from(first, others);
            let path = path_of_names(alloc, text, names, loc)?;
            Ok(Some(path))
        }
    }
}

/// Paths, each read from its syntax.
pub struct Paths;

impl<'a> Part<'a> for Paths {
    type Raw = PathSyntax;

    type Item = Path<'a>;

    ghost fits = { IsScanned IsPath };

    ghost sites = { path_sites };

    ghost stands_for = { IsPathOf };

    fn read(alloc: Global, text: &'a str, raw: PathSyntax) -> Result<Path<'a>, Stopped> {
        path(alloc, text, raw)
    }
}

/// References to actions, each read from its syntax.
pub struct References;

impl<'a> Part<'a> for References {
    type Raw = PathSyntax;

    type Item = Node<QualName<'a>>;

    ghost fits = { IsScanned IsRef };

    ghost sites = { path_sites };

    ghost stands_for = { IsRefOf };

    fn read(alloc: Global, text: &'a str, raw: PathSyntax) -> Result<Node<QualName<'a>>, Stopped> {
        let (names, loc) = raw.into_parts();
        let (front, last) = split_last(names);
        let path = type_of_reference(alloc, text, front)?;
        let eid = name(alloc, text, &last)?;
        Ok(Node {
            node: QualName { path, eid },
            loc: Some(loc),
        })
    }
}
