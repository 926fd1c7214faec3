ghost use Rattle.schema_syntax_parser.specs.Syntax.{IsDeclared, IsItem};
ghost use Rattle.schema_syntax_parser.specs.declared.syntax.ItemSyntax.TheVariants as syntax;
ghost use Rattle.schema_syntax_reader.specs.Sites.{declared_sites, item_sites};
ghost use Rattle.schema_syntax_reader.specs.Placed.{IsScanned};
ghost use Rattle.schema_syntax_reader.specs.Readings.{Reads};
ghost use Rattle.schema_syntax_reader.specs.Trees.{IsDeclaredOf, IsItemOf};

use crate::decls::decl;
use crate::names::notes;
use crate::parts::{Part, all};
use crate::paths::path;
use crate::stopped::Stopped;
use cedar_data::{Boxed, List, Loc, Node};
use schema_syntax_parser::{AnnotationSyntax, DeclaredSyntax, ItemSyntax, PathSyntax};
use schema_syntax_tree::{Annotated, Declaration, Namespace, SrcAnnotations};
use std::alloc::Global;

/// A declaration with its annotations, or of its user faults the one that ends first.
pub fn declared<'a>(
    alloc: Global,
    text: &'a str,
    raw: DeclaredSyntax,
) -> Result<Annotated<'a, Node<Declaration<'a>>>, Stopped>
    requires { IsScanned IsDeclared text.now raw }
    ensures { Reads text.now (declared_sites raw) (IsDeclaredOf text.now raw) result }
{
    let (annotations, raw_decl, loc) = raw.into_parts();
    let annotations = notes(alloc, text, annotations.as_slice())?;
    let node = decl(alloc, text, raw_decl)?;
    let item = Node {
        node,
        loc: Some(loc),
    };
    Ok(Annotated { item, annotations })
}

// The declarations of a namespace.
struct Decls;

impl<'a> Part<'a> for Decls {
    type Raw = DeclaredSyntax;

    type Item = Annotated<'a, Node<Declaration<'a>>>;

    ghost fits = { IsScanned IsDeclared };

    ghost sites = { declared_sites };

    ghost stands_for = { IsDeclaredOf };

    fn read(
        alloc: Global,
        text: &'a str,
        raw: DeclaredSyntax,
    ) -> Result<Annotated<'a, Node<Declaration<'a>>>, Stopped> {
        declared(alloc, text, raw)
    }
}

// A namespace, from its annotations, its path, its declarations and its place.
fn namespace<'a>(
    alloc: Global,
    text: &'a str,
    list: List<AnnotationSyntax>,
    name: PathSyntax,
    decls: List<DeclaredSyntax>,
    loc: Loc,
) -> Result<Annotated<'a, Namespace<'a>>, Stopped>
    requires { IsScanned IsItem text.now (syntax.Namespace list name decls loc) }
    ensures { let raw = syntax.Namespace list name decls loc in Reads text.now (item_sites raw)
        (IsItemOf text.now raw) result }
{
    let annotations = notes(alloc, text, list.as_slice())?;
    let name = path(alloc, text, name)?;
    let decls = all::<Decls>(alloc, text, decls)?;
    let item = Namespace {
        name: Some(Boxed::new(alloc, name)?),
        decls: List::from_vec(decls),
        loc: Some(loc),
    };
    Ok(Annotated { item, annotations })
}

// A declaration outside of every namespace: it is alone in one without name, place and annotations.
fn outside<'a>(
    alloc: Global,
    text: &'a str,
    raw: DeclaredSyntax,
) -> Result<Annotated<'a, Namespace<'a>>, Stopped>
    requires { IsScanned IsItem text.now (syntax.Decl raw) }
    ensures { Reads text.now (item_sites (syntax.Decl raw)) (IsItemOf text.now (syntax.Decl raw)) result }
{
    let decl = declared(alloc, text, raw)?;
    let mut decls = Vec::with_capacity(alloc, 1)?;
    decls.push_reserved(decl);
    let item = Namespace {
        name: None,
        decls: List::from_vec(decls),
        loc: None,
    };
    let annotations = SrcAnnotations::new();
    Ok(Annotated { item, annotations })
}

/// What an item stands for, or of its user faults the one that ends first. Its syntax is let go as it is read.
pub fn item<'a>(
    alloc: Global,
    text: &'a str,
    raw: ItemSyntax,
) -> Result<Annotated<'a, Namespace<'a>>, Stopped>
    requires { IsScanned IsItem text.now raw }
    ensures { Reads text.now (item_sites raw) (IsItemOf text.now raw) result }
{
    match raw {
        ItemSyntax::Namespace(list, name, decls, loc) => {
            namespace(alloc, text, list, name, decls, loc)
        }
        ItemSyntax::Decl(raw) => outside(alloc, text, raw),
    }
}
