ghost use Rattle.std.specs.List.{AllByRecursion};
ghost use Rattle.laws_written.specs.Printed.{AreProperNotes};
ghost use Rattle.laws_print.specs.Printable.Orderly.{IsOrderlyType, IsOrderlyKind, HasOrderlyContext};

use crate::orderly_types::{annotations_rise, tags_are_orderly, type_is_orderly};
use cedar_data::Text;
use cedar_identifiers::{RawName, UnreservedId};
use schema_json::{ActionType, ApplySpec, CommonType, CommonTypeId, EntityType, EntityTypeKind};

// What is declared of an entity type is orderly.
fn kind_is_orderly(kind: &EntityTypeKind<RawName>)
    ensures { IsOrderlyKind kind.now }
{
    match kind {
        EntityTypeKind::Standard(standard) => {
            let standard = standard.get();
            type_is_orderly(&standard.shape.0);
            tags_are_orderly(&standard.tags);
        }
        EntityTypeKind::Enum { choices } => {
            let _ = choices.get().first();
        }
    }
}

// The context of an action is orderly, where one is written.
fn context_is_orderly(applies_to: &Option<ApplySpec<RawName>>)
    ensures { HasOrderlyContext applies_to.now }
{
    match applies_to {
        Some(spec) => type_is_orderly(&spec.context.0),
        None => {}
    }
}

// The common types of each namespace in memory are orderly.
pub fn commons_are_orderly(entries: &[(CommonTypeId, CommonType<RawName>)])
    ensures { AllByRecursion (λ e. AreProperNotes e.1.annotations.0 × IsOrderlyType e.1.ty) entries.now }
{
    for (_, common) in entries {
        annotations_rise(&common.annotations);
        type_is_orderly(&common.ty);
    }
}

// The entity types of each namespace in memory are orderly.
pub fn entities_are_orderly(entries: &[(UnreservedId, EntityType<RawName>)])
    ensures { AllByRecursion (λ e. AreProperNotes e.1.annotations.0 × IsOrderlyKind e.1.kind) entries.now }
{
    for (_, entity) in entries {
        annotations_rise(&entity.annotations);
        kind_is_orderly(&entity.kind);
    }
}

// The actions of each namespace in memory are orderly.
pub fn actions_are_orderly(entries: &[(Text, ActionType<RawName>)])
    ensures { AllByRecursion (λ e. AreProperNotes e.1.annotations.0 × HasOrderlyContext e.1.applies_to) entries.now }
{
    for (_, action) in entries {
        annotations_rise(&action.annotations);
        context_is_orderly(&action.applies_to);
    }
}
