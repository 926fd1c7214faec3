ghost use Rattle.std.specs.Prelude.{◌≡◌, ◌↔◌, true, map};
ghost use Rattle.std.specs.Option.{option_map};
ghost use Rattle.schema_build_types.specs.Content.{type_content, entity_content};
ghost use Rattle.schema_build_equal.specs.Declared.{entity_kind};

use crate::sets::{same_ancestors, same_name};
use crate::types::{same_attributes, same_type};
use cedar_data::Boxed;
use schema_build_types::{EntityTypeEntry, Type, ValidatorEntityTypeKind};

// Whether both have tags of one type, or neither has tags.
fn same_tags(a: &Option<Boxed<Type>>, b: &Option<Boxed<Type>>) -> bool
    ensures { result ≡ true ↔ option_map type_content a.now ≡ option_map type_content b.now }
{
    match a {
        Some(tag) => match b {
            Some(other) => same_type(tag.get(), other.get()),
            None => false,
        },
        None => b.is_none(),
    }
}

// Whether the same is declared of two entity types, their ancestors aside.
fn same_kind(a: &ValidatorEntityTypeKind, b: &ValidatorEntityTypeKind) -> bool
    ensures { result ≡ true ↔ entity_kind a.now ≡ entity_kind b.now }
{
    match a {
        ValidatorEntityTypeKind::Standard {
            attributes,
            more,
            tags,
        } => match b {
            ValidatorEntityTypeKind::Standard {
                attributes: others,
                more: others_more,
                tags: other_tags,
            } => {
                if *more != *others_more {
                    return false;
                }
                if !same_attributes(attributes.as_slice(), others.as_slice()) {
                    return false;
                }
                same_tags(tags, other_tags)
            }
            _ => false,
        },
        ValidatorEntityTypeKind::Enum(choices) => match b {
            ValidatorEntityTypeKind::Enum(others) => *choices == *others,
            _ => false,
        },
        ValidatorEntityTypeKind::External => matches!(b, ValidatorEntityTypeKind::External),
    }
}

// Whether two entity types say the same.
fn same_entity_type(a: &EntityTypeEntry, b: &EntityTypeEntry) -> bool
    ensures { result ≡ true ↔ entity_content a.now ≡ entity_content b.now }
{
    if !same_name(&a.name, &b.name) {
        return false;
    }
    if !same_ancestors(a.ty.ancestors.as_slice(), b.ty.ancestors.as_slice()) {
        return false;
    }
    same_kind(&a.ty.kind, &b.ty.kind)
}

/// Whether the entity types say the same in turn.
pub fn same_entity_types(a: &[EntityTypeEntry], b: &[EntityTypeEntry]) -> bool
    ensures { result ≡ true ↔ map entity_content a.now ≡ map entity_content b.now }
{
    if a.len() != b.len() {
        return false;
    }
    for at in 0..a.len() {
        if !same_entity_type(&a[at], &b[at]) {
            return false;
        }
    }
    true
}
