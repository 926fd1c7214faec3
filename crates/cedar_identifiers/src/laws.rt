//! Laws of names, and of what stands beside them. Each law is what its function ensures; the functions do nothing.
ghost use Rattle.std.specs.Prelude.{◌≡◌, ◌↔◌, ◌&&◌, true};
ghost use Rattle.std.specs.Str.{encode_utf8_all};
ghost use Rattle.std.specs.Cmp.Lexicographic.{pointwise, slice_cmp};
ghost use Rattle.cedar_identifiers.specs.declared.eid.Eid.{Eid as Told};
ghost use Rattle.cedar_identifiers.specs.declared.annotations.Annotations.{Annotations as Notes};
ghost use Rattle.cedar_data.specs.Text.{text_cmp};
ghost use Rattle.cedar_identifiers.specs.Names.{components_of};
ghost use Rattle.cedar_identifiers.specs.OneReading.{OneName, NoFault, OneFault};

use crate::annotations::Annotations;
use crate::any_id::AnyId;
use crate::eid::Eid;
use crate::id::Id;
use crate::internal_name::InternalName;
use crate::name::Name;
use crate::raw_name::RawName;
use crate::unreserved_id::UnreservedId;
use cedar_data::Text;

/// Ids of entities are equal exactly where their bytes are.
pub fn eids_are_equal_by_bytes()
    ensures { (a b : Told) → (⟦<Eid as PartialEq>⟧.eq a b ≡ true ↔ (encode_utf8_all a.0 ≡ encode_utf8_all b.0)) }
{}

/// Annotations are equal exactly where they have the same keys in order, each with an equal value or each without one.
pub fn annotations_are_equal_by_entries()
    ensures { (a b : Notes) → ⟦<Annotations as PartialEq>⟧.eq a b
        ≡ pointwise (λ p q. ⟦<AnyId as PartialEq>⟧.eq p.0 q.0 && ⟦<Option<Text> as PartialEq>⟧.eq p.1 q.1) a.0 b.0 }
{}

/// A text reads as one name, or has one fault: besides being out of memory, which may come at any text, no other answer
/// is right.
pub fn one_reading(text: &str)
    ensures one_name { OneName text.now }
    ensures no_fault { NoFault text.now }
    ensures one_fault { OneFault text.now }
{}

/// Words are ordered by bytes, and words with the same text are the same.
pub fn any_ids_go_by_text(a: &AnyId, b: &AnyId)
    ensures order { ⟦<AnyId as Ord>⟧.cmp a.now b.now ≡ text_cmp a.now.text b.now.text }
    ensures equal { ⟦<AnyId as PartialEq>⟧.eq a.now b.now ≡ true ↔ a.now ≡ b.now }
    ensures same { a.now.text ≡ b.now.text → a.now ≡ b.now }
{}

/// Words that may stand in names are ordered by bytes, and those with one text are the same.
pub fn ids_go_by_text(a: &Id, b: &Id)
    ensures order { ⟦<Id as Ord>⟧.cmp a.now b.now ≡ text_cmp a.now.text b.now.text }
    ensures equal { ⟦<Id as PartialEq>⟧.eq a.now b.now ≡ true ↔ a.now ≡ b.now }
    ensures same { a.now.text ≡ b.now.text → a.now ≡ b.now }
{}

/// Words that may stand in declared names are ordered by bytes, and those with one text are the same.
pub fn unreserved_ids_go_by_text(a: &UnreservedId, b: &UnreservedId)
    ensures order { ⟦<UnreservedId as Ord>⟧.cmp a.now b.now ≡ text_cmp a.now.id.text b.now.id.text }
    ensures equal { ⟦<UnreservedId as PartialEq>⟧.eq a.now b.now ≡ true ↔ a.now ≡ b.now }
    ensures same { a.now.id.text ≡ b.now.id.text → a.now ≡ b.now }
{}

/// Names are ordered by their components, the outermost first and each by bytes; their places are not seen.
pub fn names_go_by_components(a: &InternalName, b: &InternalName)
    ensures order { ⟦<InternalName as Ord>⟧.cmp a.now b.now ≡ slice_cmp text_cmp (components_of a.now)
        (components_of b.now) }
    ensures equal { ⟦<InternalName as PartialEq>⟧.eq a.now b.now ≡ true ↔ (components_of a.now ≡ components_of b.now) }
{}

/// Names without `__cedar` are ordered by their components, the outermost first and each by bytes; their places are not
/// seen.
pub fn declared_names_go_by_components(a: &Name, b: &Name)
    ensures order { ⟦<Name as Ord>⟧.cmp a.now b.now ≡ slice_cmp text_cmp (components_of a.now.name)
        (components_of b.now.name) }
    ensures equal { ⟦<Name as PartialEq>⟧.eq a.now b.now ≡ true
        ↔ (components_of a.now.name ≡ components_of b.now.name) }
{}

/// Names as written are ordered by their components, the outermost first and each by bytes; their places are not seen.
pub fn raw_names_go_by_components(a: &RawName, b: &RawName)
    ensures order { ⟦<RawName as Ord>⟧.cmp a.now b.now ≡ slice_cmp text_cmp (components_of a.now.name)
        (components_of b.now.name) }
    ensures equal { ⟦<RawName as PartialEq>⟧.eq a.now b.now ≡ true
        ↔ (components_of a.now.name ≡ components_of b.now.name) }
{}
