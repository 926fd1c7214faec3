// Actions, and what they may be applied to.
ghost use Rattle.std.specs.Prelude.{codes};
ghost use Rattle.serde_json.specs.View.{view, members_view};
ghost use Rattle.serde_json.specs.Find.{get_member};
ghost use Rattle.schema_json_shapes.specs.Walk.{names, or_null};
ghost use Rattle.schema_json_shapes.specs.Said.{IsNamed, IsList, IsOptional, not_null};
ghost use Rattle.schema_json_shapes.specs.Reads.{ReadsValue, field_demands};
ghost use Rattle.schema_compat_shapes.specs.OldWalk.{at_field, old_action_demands, old_action_members};
ghost use Rattle.schema_compat_shapes.specs.OldWalk.{old_applies_to_demands, old_applies_to_members};
ghost use Rattle.schema_compat_shapes.specs.OldParts.{IsOldAction, IsOldActionIn, IsOldAppliesTo, IsOldAppliesToIn};

use crate::action_ids::parents_at;
use crate::shapes::shape_at;
use crate::tables::{action_fields, applies_to_fields};
use cedar_data::List;
use cedar_identifiers::RawName;
use schema_compat_types::{ActionType, ApplySpec};
use schema_json_shapes::ShapeFault;
use schema_json_shapes::actions::attributes_at;
use schema_json_shapes::fields::{Members, check_fields, given_at};
use schema_json_shapes::leaves::wrong_type;
use schema_json_shapes::names::read_names;
use serde_json::Value;
use std::alloc::Global;

// The action that a value says in the deprecated form, or its first fault, under the name `label`.
pub(crate) fn read_action(
    alloc: Global,
    value: &Value,
    label: &str,
) -> Result<ActionType, ShapeFault>
    ensures { ReadsValue result (old_action_demands label.now (view value.now)) (IsOldAction (view value.now)) }
{
    match value.as_object() {
        Some(members) => read_members(alloc, members),
        None => Err(wrong_type(alloc, label)),
    }
}

fn read_members(alloc: Global, members: &Members) -> Result<ActionType, ShapeFault>
    ensures { let ms = members_view members.now.entries in
        ReadsValue result (old_action_members ms) (IsOldActionIn ms) }
{
    check_fields(alloc, action_fields(), members)?;
    let applies_to = applies_to_at(alloc, members)?;
    let attributes = attributes_at(alloc, members)?;
    let member_of = parents_at(alloc, members)?;
    Ok(ActionType {
        attributes,
        applies_to,
        member_of,
    })
}

fn applies_to_at(alloc: Global, members: &Members) -> Result<Option<ApplySpec>, ShapeFault>
    ensures { let o = not_null (get_member (codes "appliesTo") (members_view members.now.entries)) in
        ReadsValue result (at_field old_applies_to_demands (codes "appliesTo") o) (IsOptional IsOldAppliesTo o) }
{
    match given_at(members, "appliesTo") {
        Some(value) => Ok(Some(read_applies_to(alloc, value)?)),
        None => Ok(None),
    }
}

fn read_applies_to(alloc: Global, value: &Value) -> Result<ApplySpec, ShapeFault>
    ensures { ReadsValue result (old_applies_to_demands (codes "appliesTo") (view value.now))
        (IsOldAppliesTo (view value.now)) }
{
    match value.as_object() {
        Some(members) => read_applies_to_members(alloc, members),
        None => Err(wrong_type(alloc, "appliesTo")),
    }
}

fn read_applies_to_members(alloc: Global, members: &Members) -> Result<ApplySpec, ShapeFault>
    ensures { let ms = members_view members.now.entries in
        ReadsValue result (old_applies_to_members ms) (IsOldAppliesToIn ms) }
{
    check_fields(alloc, applies_to_fields(), members)?;
    let context = shape_at(alloc, members, "context")?;
    let principal_types = names_at(alloc, members, "principalTypes")?;
    let resource_types = names_at(alloc, members, "resourceTypes")?;
    Ok(ApplySpec {
        resource_types,
        principal_types,
        context,
    })
}

// The names in a field, where it is there and not null.
fn names_at(
    alloc: Global,
    members: &Members,
    name: &str,
) -> Result<Option<List<RawName>>, ShapeFault>
    ensures { let o = get_member name.now (members_view members.now.entries) in
        ReadsValue result (field_demands (or_null names) name.now o) (IsOptional (IsList IsNamed) (not_null o)) }
{
    match given_at(members, name) {
        Some(value) => Ok(Some(read_names(alloc, value, name)?)),
        None => Ok(None),
    }
}
