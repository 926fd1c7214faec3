// Entity types.
ghost use Rattle.serde_json.specs.View.{view, members_view};
ghost use Rattle.schema_json_shapes.specs.Reads.{ReadsValue};
ghost use Rattle.schema_json_shapes.specs.Entries.{of_object};
ghost use Rattle.schema_compat_shapes.specs.OldWalk.{old_entity_type_members};
ghost use Rattle.schema_compat_shapes.specs.OldParts.{IsOldEntityType, IsOldEntityTypeIn};

use crate::shapes::shape_at;
use crate::tables::entity_type_fields;
use schema_compat_types::EntityType;
use schema_json_shapes::ShapeFault;
use schema_json_shapes::entity_types::parents_at;
use schema_json_shapes::fields::{Members, check_fields};
use schema_json_shapes::leaves::wrong_type;
use serde_json::Value;
use std::alloc::Global;

// The entity type that a value says in the deprecated form, or its first fault, under the name `label`.
pub(crate) fn read_entity_type(
    alloc: Global,
    value: &Value,
    label: &str,
) -> Result<EntityType, ShapeFault>
    ensures { ReadsValue result (of_object old_entity_type_members label.now (view value.now))
        (IsOldEntityType (view value.now)) }
{
    match value.as_object() {
        Some(members) => read_members(alloc, members),
        None => Err(wrong_type(alloc, label)),
    }
}

fn read_members(alloc: Global, members: &Members) -> Result<EntityType, ShapeFault>
    ensures { let ms = members_view members.now.entries in
        ReadsValue result (old_entity_type_members ms) (IsOldEntityTypeIn ms) }
{
    check_fields(alloc, entity_type_fields(), members)?;
    let member_of_types = parents_at(alloc, members)?;
    let shape = shape_at(alloc, members, "shape")?;
    Ok(EntityType {
        member_of_types,
        shape,
    })
}
