//! The annotations of an item, each key once.
ghost use Rattle.std.specs.Prelude.{◌≡◌, [], map, IfOk, IfErr};
ghost use Rattle.std.specs.Option.{option_map};
ghost use Rattle.std.specs.BTreeMap.{get};
ghost use Rattle.std.specs.List.Sorted.{IsStrictlySortedBy};
ghost use Rattle.cedar_data.specs.Text.{text_cmp};
ghost use Rattle.schema_syntax_reader.specs.Deduplicated.{AreKept, AreRefused};
ghost use Rattle.schema_syntax_reader.specs.Collected.{HasRead, note_of_entry};

use cedar_data::{Loc, Map, Node};
use schema_syntax_errors::{AnnotationError, UserError};
use schema_syntax_tree::{Annotated, SrcAnnotation, SrcAnnotations, SrcStr, SrcWord};
use std::alloc::{AllocError, Global};
use std::collections::BTreeMap;

// A value, and the place of its key.
#[derive(Drop)]
struct Kept<'a> {
    value: Option<SrcStr<'a>>,
    place: Option<Loc>,
}

// The place of the key in the tree, where the tree has it.
fn place_in<'a>(tree: &BTreeMap<SrcWord<'a>, Kept<'a>>, key: &SrcWord<'a>) -> Option<Option<Loc>>
    ensures { result ≡ option_map (λ kept. kept.place) (get ⟦<SrcWord<'static> as Ord>⟧.cmp tree.now key.now) }
{
    match tree.get(key) {
        None => None,
        Some(kept) => Some(kept.place),
    }
}

// The annotations by their keys, unless one stands twice.
fn by_keys<'a>(
    alloc: Global,
    annotations: &[Node<SrcAnnotation<'a>>],
) -> Result<BTreeMap<SrcWord<'a>, Kept<'a>>, AnnotationError>
    ensures tree { IfOk result (λ tree. HasRead annotations.now [] tree.entries) }
    ensures twice { IfErr result (AreRefused annotations.now) }
{
    let mut tree = BTreeMap::new(alloc);
    for annotation in annotations {
        let key = &annotation.node.key;
        if let Some(loc) = place_in(&tree, &key.node) {
            let id = key.node.to_any_id(alloc)?;
            let first = Node { node: (), loc };
            let second = Node {
                node: (),
                loc: key.loc,
            };
            return Err(AnnotationError::User(UserError::DuplicateAnnotations(id, first, second)));
        }
        let kept = Kept {
            value: without_place(&annotation.node.value),
            place: key.loc,
        };
        tree.insert(key.node.again(), kept)?;
    }
    Ok(tree)
}

// The text alone.
fn without_place<'a>(value: &Option<Node<SrcStr<'a>>>) -> Option<SrcStr<'a>>
    ensures { result ≡ option_map (λ v. v.node) value.now }
{
    match value {
        None => None,
        Some(value) => Some(value.node.again()),
    }
}

// The annotations with these keys and values, without the places.
fn without_places<'a>(
    alloc: Global,
    tree: BTreeMap<SrcWord<'a>, Kept<'a>>,
) -> Result<SrcAnnotations<'a>, AllocError>
    ensures notes { IfOk result (λ notes. notes.0 ≡ map note_of_entry tree.entry.entries) }
    ensures rising { IfOk result (λ notes. IsStrictlySortedBy text_cmp (map (λ note. note.0.text) notes.0)) }
{
    let mut notes = Vec::with_capacity(alloc, tree.len())?;
    for (key, kept) in tree {
        notes.push_reserved((key, kept.value));
    }
    SrcAnnotations::from_map(alloc, Map::from_sorted_vec(notes))
}

/// The item with these annotations, unless a key stands twice: then the place of its first annotation is named, and
/// that of the first one whose key stood before.
pub fn deduplicate_annotations<'a, T: Drop>(
    alloc: Global,
    item: T,
    annotations: Vec<Node<SrcAnnotation<'a>>>,
) -> Result<Annotated<'a, T>, AnnotationError>
    ensures item { IfOk result (λ annotated. annotated.item ≡ item) }
    ensures kept { IfOk result (λ annotated. AreKept annotations.entry.items annotated.annotations.0) }
    ensures twice { IfErr result (AreRefused annotations.entry.items) }
{
    let tree = by_keys(alloc, annotations.as_slice())?;
    drop(annotations);
    let annotations = without_places(alloc, tree)?;
    Ok(Annotated { item, annotations })
}
