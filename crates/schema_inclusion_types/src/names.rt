ghost use Rattle.std.specs.Prelude.{◌≡◌};
ghost use Rattle.std.specs.Option.{option_copied, option_map};
ghost use Rattle.std.specs.Str.{bytes_eq};
ghost use Rattle.cedar_identifiers.specs.Names.{components_of};
ghost use Rattle.cedar_names.specs.Definitions.{same_name};
ghost use Rattle.schema_build_types.specs.Content.{names_content};
ghost use Rattle.schema_build_text.specs.Readings.{first_name};
ghost use Rattle.schema_inclusion_types.specs.Least.{lesser, least};

use cedar_data::{NonEmpty, Text};
use cedar_identifiers::laws::{declared_names_go_by_components, unreserved_ids_go_by_text};
use cedar_identifiers::{Name, UnreservedId};
use std::cmp::Ordering;

/// Whether the texts are the same.
pub fn same_text(a: &Text, b: &Text) -> bool
    ensures { result ≡ bytes_eq a.now b.now }
{
    *a == *b
}

/// Whether the names have the same components.
pub fn same_name(a: &Name, b: &Name) -> bool
    ensures { result ≡ same_name (components_of a.now.name) (components_of b.now.name) }
{
    declared_names_go_by_components(a, b);
    *a == *b
}

// Whether the words are the same.
pub(crate) fn same_word(a: &UnreservedId, b: &UnreservedId) -> bool
    ensures { result ≡ bytes_eq a.now.id.text b.now.id.text }
{
    unreserved_ids_go_by_text(a, b);
    *a == *b
}

// The lesser of a name and the least of others, where there are others.
fn lesser<'a>(name: &'a Name, others: Option<&'a Name>) -> &'a Name
    ensures { components_of result.now.name ≡ lesser (components_of name.now.name)
        (option_map (λ n. components_of n.name) (option_copied others.entry)) }
{
    match others {
        None => name,
        Some(other) => {
            declared_names_go_by_components(name, other);
            match name.cmp(other) {
                Ordering::Less => name,
                Ordering::Equal => other,
                Ordering::Greater => other,
            }
        }
    }
}

// The least of the names, where there is one.
fn least(names: &[Name]) -> Option<&Name>
    ensures { option_map (λ n. components_of n.name) (option_copied result) ≡ least (names_content names.now) }
{
    let mut found = None;
    let mut left = names.len();
    while left > 0 {
        left -= 1;
        found = Some(lesser(&names[left], found));
    }
    found
}

// The least of the names.
pub(crate) fn first_name(names: &NonEmpty<Name>) -> &Name
    ensures { components_of result.now.name ≡ first_name (names_content names.now) }
{
    let (first, others) = names.parts();
    lesser(first, least(others))
}
