ghost use Rattle.std.specs.Prelude.{◌≡◌, ◌↔◌, true, ◌||◌};
ghost use Rattle.std.specs.Cmp.Lexicographic.{pointwise};
ghost use Rattle.cedar_identifiers.specs.Names.{components_of};
ghost use Rattle.cedar_names.specs.Definitions.{action_of};
ghost use Rattle.schema_build_types.specs.Content.{names_content, actions_in_order};
ghost use Rattle.schema_build_equal.specs.Among.{are_among, are_one_set};

use cedar_data::Shared;
use cedar_identifiers::Name;
use cedar_names::EntityUID;

// Each of these items is among the others.
fn are_among<T: PartialEq>(items: &[T], others: &[T]) -> bool
    ensures { result ≡ are_among T.eq items.now others.now }
{
    for item in items {
        if !others.contains(item) {
            return false;
        }
    }
    true
}

// The items are equal in turn, or each is among the others, both ways.
fn are_one_set<T: PartialEq>(a: &[T], b: &[T]) -> bool
    ensures { result ≡ (pointwise T.eq a.now b.now || are_one_set T.eq a.now b.now) }
{
    if a == b {
        return true;
    }
    if are_among(a, b) {
        are_among(b, a)
    } else {
        false
    }
}

/// Whether the names have the same components.
pub fn same_name(a: &Name, b: &Name) -> bool
    ensures { result ≡ true ↔ components_of a.now.name ≡ components_of b.now.name }
{
    *a == *b
}

/// Whether the names are the same, whatever their order and however often each stands.
pub fn same_names(a: &[Name], b: &[Name]) -> bool
    ensures { result ≡ true ↔ names_content a.now ≡ names_content b.now }
{
    are_one_set(a, b)
}

/// Whether the shared names are the same, whatever their order and however often each stands.
pub fn same_ancestors(a: &[Shared<Name>], b: &[Shared<Name>]) -> bool
    ensures { result ≡ true ↔ names_content a.now ≡ names_content b.now }
{
    are_one_set(a, b)
}

/// Whether the actions have the same type and the same id.
pub fn same_uid(a: &EntityUID, b: &EntityUID) -> bool
    ensures { result ≡ true ↔ action_of a.now ≡ action_of b.now }
{
    *a == *b
}

/// Whether the actions are the same, whatever their order and however often each stands.
pub fn same_actions(a: &[Shared<EntityUID>], b: &[Shared<EntityUID>]) -> bool
    ensures { result ≡ true ↔ actions_in_order a.now ≡ actions_in_order b.now }
{
    are_one_set(a, b)
}
