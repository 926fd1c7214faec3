ghost use Rattle.std.specs.Prelude.{◌≡◌, ◌↔◌, true};
ghost use Rattle.std.specs.Cmp.{IsEquivalence, IsTotalOrder};
ghost use Rattle.std.specs.Cmp.Lexicographic.{slice_cmp};
ghost use Rattle.std.specs.Ordering.{eq_by_cmp};
ghost use Rattle.cedar_data.specs.Text.{text_cmp};
ghost use Rattle.cedar_identifiers.specs.Names.{texts_of};
ghost use Rattle.schema_syntax_tree.specs.declared.annotated.Annotated.{Annotated as Beside};

use crate::annotated::Annotated;
use crate::path::Path;
use crate::src_annotations::SrcAnnotations;
use cedar_data::lawful;
use std::hash::Hash;

/// Paths are ordered by their ids, the outermost first and each by bytes; their places are not seen.
pub fn paths_go_by_ids(a: &Path<'_>, b: &Path<'_>)
    ensures order { ⟦<Path<'static> as Ord>⟧.cmp a.now b.now ≡ slice_cmp text_cmp (texts_of a.now.ids)
        (texts_of b.now.ids) }
    ensures equal { ⟦<Path<'static> as PartialEq>⟧.eq a.now b.now ≡ true ↔ (texts_of a.now.ids ≡ texts_of b.now.ids) }
{}

/// Annotated items are equal exactly where the items and the annotations are.
pub fn annotated_items_are_equal_by_parts<T: PartialEq>()
    ensures { (a b : Beside T) → (⟦<Annotated<'static, T> as PartialEq>⟧.eq a b ≡ true
        ↔ ((T.eq a.item b.item ≡ true) × (⟦<SrcAnnotations<'static> as PartialEq>⟧.eq a.annotations b.annotations
        ≡ true))) }
{}

/// Comparisons of annotated items are lawful for every lawful type of items.
pub fn annotated_items_are_lawful<T: Ord + Hash>()
    ensures equivalence { IsEquivalence ⟦<Annotated<'static, T> as PartialEq>⟧.eq }
    ensures order { IsTotalOrder ⟦<Annotated<'static, T> as Ord>⟧.cmp }
    ensures agrees { (a b : Beside T) → ⟦<Annotated<'static, T> as PartialEq>⟧.eq a b
        ≡ eq_by_cmp ⟦<Annotated<'static, T> as Ord>⟧.cmp a b }
    ensures alike { (a b : Beside T) → ⟦<Annotated<'static, T> as PartialEq>⟧.eq a b ≡ true
        → ⟦<Annotated<'static, T> as Hash>⟧.hash_input a ≡ ⟦<Annotated<'static, T> as Hash>⟧.hash_input b }
{
    lawful::<Annotated<'static, T>>()
}
