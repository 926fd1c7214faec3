ghost use Rattle.std.specs.Prelude.{◌≡◌, ◌↔◌, true, ◌||◌};
ghost use Rattle.std.specs.List.{list_any};
ghost use Rattle.std.specs.Cmp.Lexicographic.{pointwise};
ghost use Rattle.schema_build_types.specs.Content.{names_content};
ghost use Rattle.schema_build_equal.specs.Among.{are_among, are_one_set};

use cedar_data::NonEmpty;
use cedar_identifiers::Name;

// One of the items is equal to this one.
fn is_joined<T: PartialEq>(items: &NonEmpty<T>, item: &T) -> bool
    ensures { result ≡ list_any (λ y. T.eq y item.now) items.now }
{
    for other in items.iter() {
        if *other == *item {
            return true;
        }
    }
    false
}

// Each of these items is among the others.
fn are_joined<T: PartialEq>(items: &NonEmpty<T>, others: &NonEmpty<T>) -> bool
    ensures { result ≡ are_among T.eq items.now others.now }
{
    for item in items.iter() {
        if !is_joined(others, item) {
            return false;
        }
    }
    true
}

// The items are equal in turn, or each is among the others, both ways.
fn are_joined_alike<T: PartialEq>(a: &NonEmpty<T>, b: &NonEmpty<T>) -> bool
    ensures { result ≡ (pointwise T.eq a.now b.now || are_one_set T.eq a.now b.now) }
{
    if *a == *b {
        return true;
    }
    if are_joined(a, b) {
        are_joined(b, a)
    } else {
        false
    }
}

/// Whether the joined names are the same, whatever their order and however often each stands.
pub fn same_joined_names(a: &NonEmpty<Name>, b: &NonEmpty<Name>) -> bool
    ensures { result ≡ true ↔ names_content a.now ≡ names_content b.now }
{
    are_joined_alike(a, b)
}
