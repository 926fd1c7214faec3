ghost use Rattle.std.specs.Prelude.{◌≡◌, ◌∷◌, ◌++◌, map, reverse, IfOk, OnOk};
ghost use Rattle.std.specs.List.{flat_map};
ghost use Rattle.cedar_data.specs.Maps.{map_of};
ghost use Rattle.schema_json.specs.Orders.{annotation_key_cmp};
ghost use Rattle.schema_convert_openings.specs.Joined.{opened_as, joined_by_name};

use cedar_data::{CloneIn, List, Map, Node};
use schema_syntax_tree::{Annotated, Declaration, Namespace, SrcAnnotations, SrcStr, SrcWord};
use std::alloc::{AllocError, Global};
use std::collections::BTreeMap;

// The openings of one name: the first, and those behind it, in order.
#[derive(Drop)]
struct Openings<'a> {
    first: Annotated<'a, Namespace<'a>>,
    others: Vec<Annotated<'a, Namespace<'a>>>,
}

// The openings of each name, in the order of the first ones.
fn openings_by_name<'a>(
    alloc: Global,
    namespaces: Vec<Annotated<'a, Namespace<'a>>>,
) -> Result<Vec<Openings<'a>>, AllocError>
    ensures { IfOk result (λ groups. map (λ g. opened_as g.first (g.first ∷ g.others.items)) groups.items
        ≡ joined_by_name namespaces.entry.items) }
{
    let mut groups: Vec<Openings<'a>> = Vec::new(alloc);
    let mut places = BTreeMap::new(alloc);
    for namespace in namespaces {
        match places.get(&namespace.item.name) {
            Some(place) => {
                let place = *place;
                groups[place].others.push(namespace)?;
            }
            None => {
                let name = namespace.item.name.clone_in(alloc)?;
                places.insert(name, groups.len())?;
                groups.push(Openings {
                    first: namespace,
                    others: Vec::new(alloc),
                })?;
            }
        }
    }
    Ok(groups)
}

/// Adds the declarations at the end, in order.
pub fn push_all<'a>(
    decls: &mut Vec<Annotated<'a, Node<Declaration<'a>>>>,
    more: List<Annotated<'a, Node<Declaration<'a>>>>,
) -> Result<(), AllocError>
    ensures { OnOk result (decls.new.items ≡ decls.old.items ++ more.entry) }
{
    decls.append(&mut more.into_vec())
}

// Adds the entries.
fn push_entries<'a>(
    alloc: Global,
    entries: &mut Vec<(SrcWord<'a>, Option<SrcStr<'a>>)>,
    more: &SrcAnnotations<'a>,
) -> Result<(), AllocError>
    ensures { OnOk result (entries.new.items ≡ entries.old.items ++ more.now.0) }
{
    for entry in more.as_slice() {
        entries.push((entry.0.clone_in(alloc)?, entry.1.clone_in(alloc)?))?;
    }
    Ok(())
}

// The annotations of these entries: each key with its first value.
fn first_values<'a>(
    alloc: Global,
    mut entries: Vec<(SrcWord<'a>, Option<SrcStr<'a>>)>,
) -> Result<SrcAnnotations<'a>, AllocError>
    ensures { IfOk result (λ annotations. annotations.0 ≡ map_of annotation_key_cmp (reverse entries.entry.items)) }
{
    entries.reverse();
    SrcAnnotations::from_map(alloc, Map::from_entries(alloc, entries)?)
}

// These declarations and annotations with those of other openings behind them: of each key the first value.
fn with_others<'a>(
    alloc: Global,
    decls: List<Annotated<'a, Node<Declaration<'a>>>>,
    annotations: SrcAnnotations<'a>,
    others: Vec<Annotated<'a, Namespace<'a>>>,
) -> Result<
    (
        List<Annotated<'a, Node<Declaration<'a>>>>,
        SrcAnnotations<'a>,
    ),
    AllocError,
>
    ensures decls { IfOk result (λ out. out.0 ≡ decls.entry ++ flat_map (λ n. n.item.decls) others.entry.items) }
    ensures annotations { IfOk result (λ out. out.1.0
        ≡ map_of annotation_key_cmp (reverse (annotations.entry.0
        ++ flat_map (λ n. n.annotations.0) others.entry.items))) }
{
    let mut decls = decls.into_vec();
    let mut entries = Vec::new(alloc);
    push_entries(alloc, &mut entries, &annotations)?;
    for opening in others {
        let (item, annotations) = opening.into_parts();
        let (_, others, _) = item.into_parts();
        push_all(&mut decls, others)?;
        push_entries(alloc, &mut entries, &annotations)?;
    }
    let annotations = first_values(alloc, entries)?;
    Ok((List::from_vec(decls), annotations))
}

// The one namespace that the openings are.
fn opened_as<'a>(
    alloc: Global,
    openings: Openings<'a>,
) -> Result<Annotated<'a, Namespace<'a>>, AllocError>
    ensures { IfOk result (λ namespace. namespace
        ≡ opened_as openings.entry.first (openings.entry.first ∷ openings.entry.others.items)) }
{
    let Openings { first, others } = openings;
    let (item, annotations) = first.into_parts();
    let (name, decls, loc) = item.into_parts();
    let (decls, annotations) = with_others(alloc, decls, annotations, others)?;
    let item = Namespace { name, decls, loc };
    Ok(Annotated { item, annotations })
}

/// One namespace for each name, in the order of the first openings.
pub fn joined_by_name<'a>(
    alloc: Global,
    namespaces: Vec<Annotated<'a, Namespace<'a>>>,
) -> Result<Vec<Annotated<'a, Namespace<'a>>>, AllocError>
    ensures { IfOk result (λ joined. joined.items ≡ joined_by_name namespaces.entry.items) }
{
    let mut joined = Vec::new(alloc);
    for openings in openings_by_name(alloc, namespaces)? {
        joined.push(opened_as(alloc, openings)?)?;
    }
    Ok(joined)
}
