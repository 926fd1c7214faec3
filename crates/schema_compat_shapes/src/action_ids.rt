// References to actions.
ghost use Rattle.std.specs.Prelude.{codes};
ghost use Rattle.serde_json.specs.Data.{object};
ghost use Rattle.serde_json.specs.View.{view, items_view, members_view};
ghost use Rattle.serde_json.specs.Find.{get_member};
ghost use Rattle.schema_json_shapes.specs.Walk.{action_ids, action_id, or_null, demands, item_demands};
ghost use Rattle.schema_json_shapes.specs.Said.{IsList, AreItems, IsOptional, not_null};
ghost use Rattle.schema_json_shapes.specs.Reads.{ReadsValue, field_demands};
ghost use Rattle.schema_compat_shapes.specs.OldParts.{IsOldActionId, IsOldActionIdIn};

use cedar_data::List;
use schema_compat_types::ActionEntityUID;
use schema_json_shapes::ShapeFault;
use schema_json_shapes::actions::action_type_at;
use schema_json_shapes::fields::{Members, check_fields, given_at, needed};
use schema_json_shapes::leaves::{read_text, wrong_type};
use schema_json_shapes::tables::action_id_fields;
use serde_json::Value;
use std::alloc::Global;

// The parents of an action, where they are there and not null.
pub(crate) fn parents_at(
    alloc: Global,
    members: &Members,
) -> Result<Option<List<ActionEntityUID>>, ShapeFault>
    ensures { let o = get_member (codes "memberOf") (members_view members.now.entries) in
        ReadsValue result (field_demands (or_null action_ids) (codes "memberOf") o)
        (IsOptional (IsList IsOldActionId) (not_null o)) }
{
    match given_at(members, "memberOf") {
        Some(value) => Ok(Some(read_parents(alloc, value)?)),
        None => Ok(None),
    }
}

fn read_parents(alloc: Global, value: &Value) -> Result<List<ActionEntityUID>, ShapeFault>
    ensures { ReadsValue result (demands action_ids (codes "memberOf") (view value.now))
        (IsList IsOldActionId (view value.now)) }
{
    match value.as_array() {
        Some(items) => read_action_ids(alloc, items),
        None => Err(wrong_type(alloc, "memberOf")),
    }
}

fn read_action_ids(alloc: Global, items: &Vec<Value>) -> Result<List<ActionEntityUID>, ShapeFault>
    ensures { ReadsValue result (item_demands action_id (codes "memberOf") (items_view items.now.items))
        (AreItems IsOldActionId (items_view items.now.items)) }
{
    let mut parents = List::new(alloc);
    for item in items {
        let parent = read_action_id(alloc, item)?;
        parents.push(parent)?;
    }
    Ok(parents)
}

fn read_action_id(alloc: Global, value: &Value) -> Result<ActionEntityUID, ShapeFault>
    ensures { ReadsValue result (demands action_id (codes "memberOf") (view value.now))
        (IsOldActionId (view value.now)) }
{
    match value.as_object() {
        Some(members) => read_id_members(alloc, members),
        None => Err(wrong_type(alloc, "memberOf")),
    }
}

fn read_id_members(alloc: Global, members: &Members) -> Result<ActionEntityUID, ShapeFault>
    ensures { let ms = members_view members.now.entries in
        ReadsValue result (demands action_id (codes "memberOf") (object ms)) (IsOldActionIdIn ms) }
{
    let _ = members.len();
    check_fields(alloc, action_id_fields(), members)?;
    let value = needed(members, "id");
    let id = read_text(alloc, value, "id")?;
    let ty = action_type_at(alloc, members)?;
    Ok(ActionEntityUID { id, ty })
}
