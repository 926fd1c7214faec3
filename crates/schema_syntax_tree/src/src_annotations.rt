ghost use Rattle.std.specs.Prelude.{◌≡◌, [], IfOk};
ghost use Rattle.std.specs.Cmp.Lexicographic.{slice_cmp};
ghost use Rattle.std.specs.Ordering.{on};
ghost use Rattle.std.specs.Cmp.{on_per, and_per, on_equiv, and_equiv, on_total, then_total};
ghost use Rattle.std.specs.Cmp.{partial_order_from_own_ties, partial_order_from_total};
ghost use Rattle.std.specs.Cmp.Rules.{comparing};
ghost use Rattle.std.specs.Cmp.Lexicographic.{pointwise, slice_cmp, lists_per, lists_equiv, lists_total};
ghost use Rattle.std.specs.Ordering.{on, as_partial_cmp};
ghost use Rattle.std.proofs.Common.{rules};
ghost use Rattle.schema_syntax_tree.specs.LentWords.{note_key, note_value, note_key_eq, note_value_eq, note_key_cmp};
ghost use Rattle.schema_syntax_tree.specs.LentWords.{note_value_cmp, note_eq, note_cmp};
ghost use Rattle.schema_syntax_tree.specs.LentNotes.{notes_of, ties_of_notes, note_fed, notes_fed_alike};
ghost use Rattle.std.specs.Hash as fed;

use crate::src_str::SrcStr;
use crate::src_word::SrcWord;
use cedar_data::{CloneIn, Map, Node, SharedMap, Text};
use cedar_identifiers::{Annotations, AnyId};
use std::alloc::{AllocError, Global};
use std::cmp::Ordering;
use std::hash::{Hash, Hasher};
use std::marker::Model;

/// An annotation with its places: its key, and the value that stands behind it, where one does.
#[derive(Drop)]
pub struct SrcAnnotation<'a> {
    pub key: Node<SrcWord<'a>>,
    pub value: Option<Node<SrcStr<'a>>>,
}

/// What is said beside an item, in slices of the source. Contracts see the `Annotations`.
pub struct SrcAnnotations<'a> {
    notes: SharedMap<SrcWord<'a>, Option<SrcStr<'a>>>,
}

impl<'a> Drop for SrcAnnotations<'a> {
    fn drop(self) {
        let SrcAnnotations { notes: _notes } = self;
    }
}

impl<'a> Model for SrcAnnotations<'a> {
    ghost use Rattle.cedar_identifiers.specs.declared.annotations.Annotations.{Annotations};

    ghost Value = { Annotations };

    ghost view = { λ a. record { 0 = a.notes } };
}

impl<'a> SrcAnnotations<'a> {
    /// The annotations with these entries.
    pub fn from_map(
        alloc: Global,
        notes: Map<SrcWord<'a>, Option<SrcStr<'a>>>,
    ) -> Result<SrcAnnotations<'a>, AllocError>
        ensures { IfOk result (λ annotations. annotations.0 ≡ notes.entry) }
    {
        Ok(SrcAnnotations {
            notes: SharedMap::from_map(alloc, notes)?,
        })
    }

    /// The entries, in the order of their keys.
    pub fn as_slice(&self) -> &[(SrcWord<'a>, Option<SrcStr<'a>>)]
        ensures { result.now ≡ self.now.0 }
    {
        self.notes.as_slice()
    }

    /// No annotation, which takes no memory.
    pub fn new() -> SrcAnnotations<'a>
        ensures { result ≡ record { 0 = [] } }
    {
        SrcAnnotations {
            notes: SharedMap::new(),
        }
    }

    /// Annotations of its own.
    pub fn to_annotations(&self, alloc: Global) -> Result<Annotations, AllocError>
        ensures { IfOk result (λ copy. copy ≡ self.now) }
    {
        let mut copy = Vec::new(alloc);
        for entry in self.notes.as_slice() {
            copy.push((entry.0.to_any_id(alloc)?, own_value(&entry.1, alloc)?))?;
        }
        let notes = Map::from_sorted_vec(copy);
        Ok(Annotations(SharedMap::from_map(alloc, notes)?))
    }
}

// The value as a text of its own.
fn own_value(value: &Option<SrcStr<'_>>, alloc: Global) -> Result<Option<Text>, AllocError>
    ensures { IfOk result (λ copy. copy ≡ value.now) }
{
    match value {
        None => Ok(None),
        Some(value) => Ok(Some(value.to_text(alloc)?)),
    }
}

impl<'a> PartialEq for SrcAnnotations<'a> {
    ghost eq = { on notes_of (pointwise note_eq) };

    ghost laws = { on_per notes_of (lists_per
        (and_per (on_per note_key {E = note_key_eq} (Prim.search (comparing, rules)))
        (on_per note_value {E = note_value_eq} (Prim.search (comparing, rules))))) };

    fn eq(&self, other: &SrcAnnotations<'a>) -> bool {
        self.notes == other.notes
    }
}

impl<'a> Eq for SrcAnnotations<'a> {
    ghost laws = { on_equiv notes_of (lists_equiv
        (and_equiv (on_equiv note_key {E = note_key_eq} (Prim.search (comparing, rules)))
        (on_equiv note_value {E = note_value_eq} (Prim.search (comparing, rules))))) };
}

impl<'a> PartialOrd for SrcAnnotations<'a> {
    ghost partial_cmp = { as_partial_cmp (on notes_of (slice_cmp note_cmp)) };

    ghost laws = { partial_order_from_own_ties
        (partial_order_from_total (on_total notes_of
        (lists_total (then_total (on_total note_key {R = note_key_cmp} (Prim.search (comparing, rules)))
        (on_total note_value {R = note_value_cmp} (Prim.search (comparing, rules)))))))
        (λ a b. ties_of_notes a.0 b.0) };

    fn partial_cmp(&self, other: &SrcAnnotations<'a>) -> Option<Ordering> {
        Some(self.cmp(other))
    }
}

impl<'a> Ord for SrcAnnotations<'a> {
    ghost cmp = { on notes_of (slice_cmp note_cmp) };

    ghost total = { on_total notes_of (lists_total
        (then_total (on_total note_key {R = note_key_cmp} (Prim.search (comparing, rules)))
        (on_total note_value {R = note_value_cmp} (Prim.search (comparing, rules))))) };

    ghost matches_partial_cmp = { Prim.search (comparing, rules) };

    ghost matches_eq = { λ a b. ties_of_notes a.0 b.0 };

    fn cmp(&self, other: &SrcAnnotations<'a>) -> Ordering {
        self.notes.cmp(&other.notes)
    }
}

impl<'a> Hash for SrcAnnotations<'a> {
    ghost hash_input = { λ a. fed.slice note_fed (notes_of a) };

    ghost respects_eq = { λ a b same. notes_fed_alike a.0 b.0 same };

    fn hash<H: Hasher>(&self, state: &mut H) {
        self.notes.hash(state);
    }
}

impl<'a> CloneIn for SrcAnnotations<'a> {
    fn clone_in(&self, alloc: Global) -> Result<Self, AllocError> {
        Ok(SrcAnnotations {
            notes: self.notes.clone_in(alloc)?,
        })
    }
}
