ghost use Rattle.std.specs.Prelude.{◌≡◌, ◌≤◌, ◌++◌, length, IfOk, OnOk};
ghost use Rattle.schema_convert_openings.specs.Joined.{named_so, unnamed_so, outside, empty_namespace, joined};

use crate::openings::{joined_by_name, push_all};
use cedar_data::{List, Node};
use schema_syntax_tree::{Annotated, Declaration, Namespace, Schema, SrcAnnotations};
use std::alloc::{AllocError, Global};

// Adds the namespace where it has a name, and else its declarations to those outside.
fn push_namespace<'a>(
    alloc: Global,
    namespaces: &mut Vec<Annotated<'a, Namespace<'a>>>,
    outside: &mut Vec<Annotated<'a, Node<Declaration<'a>>>>,
    namespace: Annotated<'a, Namespace<'a>>,
) -> Result<(), AllocError>
    ensures named { OnOk result (namespaces.new.items ≡ namespaces.old.items
        ++ named_so namespace.entry.item.name namespace.entry) }
    ensures outside { OnOk result (outside.new.items ≡ outside.old.items
        ++ unnamed_so namespace.entry.item.name namespace.entry.item.decls) }
{
    if namespace.item.name.is_some() {
        namespaces.push(namespace)?;
        return Ok(());
    }
    let (item, _) = namespace.into_parts();
    let (_, decls, _) = item.into_parts();
    push_all(outside, decls)
}

// Adds the namespace of the declarations outside of every other, where there are any.
fn push_empty<'a>(
    alloc: Global,
    namespaces: &mut Vec<Annotated<'a, Namespace<'a>>>,
    outside: Vec<Annotated<'a, Node<Declaration<'a>>>>,
) -> Result<(), AllocError>
    ensures { OnOk result (namespaces.new.items ≡ namespaces.old.items ++ empty_namespace outside.entry.items) }
{
    if outside.is_empty() {
        return Ok(());
    }
    let item = Namespace {
        name: None,
        decls: List::from_vec(outside),
        loc: None,
    };
    namespaces.push(Annotated {
        item,
        annotations: SrcAnnotations::new(),
    })?;
    Ok(())
}

// How many declarations stand outside of every namespace.
fn count_outside<'a>(namespaces: &[Annotated<'a, Namespace<'a>>]) -> usize
    ensures { result ≤ length (outside namespaces.now) }
{
    let mut count = 0usize;
    for namespace in namespaces {
        if namespace.item.name.is_none() {
            count = count.saturating_add(namespace.item.decls.as_slice().len());
        }
    }
    count
}

/// The namespaces that a tree has: one for each name, in the order of the first openings, and behind them the one of
/// all declarations that stand outside of these, where there are any.
pub fn joined<'a>(
    alloc: Global,
    schema: Schema<'a>,
) -> Result<Vec<Annotated<'a, Namespace<'a>>>, AllocError>
    ensures { IfOk result (λ namespaces. namespaces.items ≡ joined schema.entry) }
{
    let openings = schema.into_vec();
    let mut outside = Vec::with_capacity(alloc, count_outside(openings.as_slice()))?;
    let mut named = Vec::new(alloc);
    for namespace in openings {
        push_namespace(alloc, &mut named, &mut outside, namespace)?;
    }
    let mut namespaces = joined_by_name(alloc, named)?;
    push_empty(alloc, &mut namespaces, outside)?;
    Ok(namespaces)
}
