// Actions.
ghost use Rattle.std.specs.Prelude.{◌≡◌, [], codes, IfOk};
ghost use Rattle.serde_json.specs.Data.{object};
ghost use Rattle.serde_json.specs.View.{view, items_view, members_view};
ghost use Rattle.serde_json.specs.Find.{get_member};
ghost use Rattle.schema_json_shapes.specs.Walk.{action, applies_to, action_ids, action_id, keys, named, or_null};
ghost use Rattle.schema_json_shapes.specs.Walk.{demands, item_demands, object_demands};
ghost use Rattle.schema_json_shapes.specs.Said.{IsNamed, IsList, AreItems, IsOptional, not_null};
ghost use Rattle.schema_json_shapes.specs.Shapes.{AreKeys, IsAction, IsActionIn, IsAppliesTo, IsAppliesToIn};
ghost use Rattle.schema_json_shapes.specs.Shapes.{IsActionId, IsActionIdIn, key_texts};
ghost use Rattle.schema_json_shapes.specs.Reads.{ReadsValue, Any, field_demands};

use crate::annotations::annotations_at;
use crate::conflicts::check_external_action;
use crate::entity_types::shape_at;
use crate::fields::{Members, check_fields, given_at, needed};
use crate::leaves::{flag_at, read_text, wrong_type};
use crate::name_role::NameRole;
use crate::names::{read_named, read_names};
use crate::shape_fault::ShapeFault;
use crate::tables::{action_fields, action_id_fields, applies_to_fields};
use cedar_data::{List, Set, Text};
use cedar_identifiers::RawName;
use schema_json::{ActionEntityUID, ActionType, ApplySpec, AttributesOrContext};
use serde_json::Value;
use std::alloc::{AllocError, Global};

/// The action that a value says, or its first fault, under the name `label`.
pub fn read_action(
    alloc: Global,
    value: &Value,
    label: &str,
) -> Result<ActionType<RawName>, ShapeFault>
    ensures { ReadsValue result (demands action label.now (view value.now)) (IsAction (view value.now)) }
{
    match value.as_object() {
        Some(members) => read_members(alloc, members),
        None => Err(wrong_type(alloc, label)),
    }
}

fn read_members(alloc: Global, members: &Members) -> Result<ActionType<RawName>, ShapeFault>
    ensures { let ms = members_view members.now.entries in
        ReadsValue result (demands action [] (object ms)) (IsActionIn ms) }
{
    let _ = members.len();
    check_members(alloc, members)?;
    let annotations = annotations_at(alloc, members)?;
    let applies_to = applies_to_at(alloc, members)?;
    let attributes = attributes_at(alloc, members)?;
    let external = flag_at(alloc, members, "external", false)?;
    let member_of = parents_at(alloc, members)?;
    Ok(ActionType {
        attributes,
        applies_to,
        member_of,
        external,
        annotations,
        loc: None,
    })
}

// What the object itself must keep.
fn check_members(alloc: Global, members: &Members) -> Result<(), ShapeFault>
    ensures { ReadsValue result (object_demands action [] (members_view members.now.entries)) Any }
{
    check_fields(alloc, action_fields(), members)?;
    check_external_action(alloc, members)
}

/// The names of the attributes, where they are there and not null.
pub fn attributes_at(alloc: Global, members: &Members) -> Result<Option<Set<Text>>, ShapeFault>
    ensures { let o = get_member (codes "attributes") (members_view members.now.entries) in
        ReadsValue result (field_demands (or_null keys) (codes "attributes") o) (IsOptional AreKeys (not_null o)) }
{
    match given_at(members, "attributes") {
        Some(value) => Ok(Some(read_attributes(alloc, value)?)),
        None => Ok(None),
    }
}

fn read_attributes(alloc: Global, value: &Value) -> Result<Set<Text>, ShapeFault>
    ensures { ReadsValue result (demands keys (codes "attributes") (view value.now)) (AreKeys (view value.now)) }
{
    match value.as_object() {
        Some(members) => Ok(read_keys(alloc, members)?),
        None => Err(wrong_type(alloc, "attributes")),
    }
}

// The keys of an object, which rise.
fn read_keys(alloc: Global, members: &Members) -> Result<Set<Text>, AllocError>
    ensures { IfOk result (λ keys. keys ≡ key_texts (members_view members.now.entries)) }
{
    let _ = members.len();
    let mut keys = Vec::new(alloc);
    for (key, _) in members {
        keys.push(Text::from_str(alloc, key.as_str())?)?;
    }
    Ok(Set::from_sorted_vec(keys))
}

fn applies_to_at(alloc: Global, members: &Members) -> Result<Option<ApplySpec<RawName>>, ShapeFault>
    ensures { let o = get_member (codes "appliesTo") (members_view members.now.entries) in
        ReadsValue result (field_demands (or_null applies_to) (codes "appliesTo") o)
        (IsOptional IsAppliesTo (not_null o)) }
{
    match given_at(members, "appliesTo") {
        Some(value) => Ok(Some(read_applies_to(alloc, value)?)),
        None => Ok(None),
    }
}

fn read_applies_to(alloc: Global, value: &Value) -> Result<ApplySpec<RawName>, ShapeFault>
    ensures { ReadsValue result (demands applies_to (codes "appliesTo") (view value.now))
        (IsAppliesTo (view value.now)) }
{
    match value.as_object() {
        Some(members) => read_applies_to_members(alloc, members),
        None => Err(wrong_type(alloc, "appliesTo")),
    }
}

fn read_applies_to_members(
    alloc: Global,
    members: &Members,
) -> Result<ApplySpec<RawName>, ShapeFault>
    ensures { let ms = members_view members.now.entries in
        ReadsValue result (demands applies_to (codes "appliesTo") (object ms)) (IsAppliesToIn ms) }
{
    let _ = members.len();
    check_fields(alloc, applies_to_fields(), members)?;
    let context = shape_at(alloc, members, "context")?;
    let principals = needed(members, "principalTypes");
    let principal_types = read_names(alloc, principals, "principalTypes")?;
    let resources = needed(members, "resourceTypes");
    let resource_types = read_names(alloc, resources, "resourceTypes")?;
    Ok(ApplySpec {
        resource_types,
        principal_types,
        context: AttributesOrContext(context),
    })
}

fn parents_at(
    alloc: Global,
    members: &Members,
) -> Result<Option<List<ActionEntityUID<RawName>>>, ShapeFault>
    ensures { let o = get_member (codes "memberOf") (members_view members.now.entries) in
        ReadsValue result (field_demands (or_null action_ids) (codes "memberOf") o)
        (IsOptional (IsList IsActionId) (not_null o)) }
{
    match given_at(members, "memberOf") {
        Some(value) => Ok(Some(read_parents(alloc, value)?)),
        None => Ok(None),
    }
}

fn read_parents(alloc: Global, value: &Value) -> Result<List<ActionEntityUID<RawName>>, ShapeFault>
    ensures { ReadsValue result (demands action_ids (codes "memberOf") (view value.now))
        (IsList IsActionId (view value.now)) }
{
    match value.as_array() {
        Some(items) => read_action_ids(alloc, items),
        None => Err(wrong_type(alloc, "memberOf")),
    }
}

fn read_action_ids(
    alloc: Global,
    items: &Vec<Value>,
) -> Result<List<ActionEntityUID<RawName>>, ShapeFault>
    ensures { ReadsValue result (item_demands action_id (codes "memberOf") (items_view items.now.items))
        (AreItems IsActionId (items_view items.now.items)) }
{
    let mut parents = List::new(alloc);
    for item in items {
        let parent = read_action_id(alloc, item)?;
        parents.push(parent)?;
    }
    Ok(parents)
}

fn read_action_id(alloc: Global, value: &Value) -> Result<ActionEntityUID<RawName>, ShapeFault>
    ensures { ReadsValue result (demands action_id (codes "memberOf") (view value.now)) (IsActionId (view value.now)) }
{
    match value.as_object() {
        Some(members) => read_id_members(alloc, members),
        None => Err(wrong_type(alloc, "memberOf")),
    }
}

fn read_id_members(alloc: Global, members: &Members) -> Result<ActionEntityUID<RawName>, ShapeFault>
    ensures { let ms = members_view members.now.entries in
        ReadsValue result (demands action_id (codes "memberOf") (object ms)) (IsActionIdIn ms) }
{
    let _ = members.len();
    check_fields(alloc, action_id_fields(), members)?;
    let value = needed(members, "id");
    let id = read_text(alloc, value, "id")?;
    let ty = action_type_at(alloc, members)?;
    Ok(ActionEntityUID::new(ty, id))
}

/// The type of a reference to an action, where it is there and not null.
pub fn action_type_at(alloc: Global, members: &Members) -> Result<Option<RawName>, ShapeFault>
    ensures { let o = get_member (codes "type") (members_view members.now.entries) in
        ReadsValue result (field_demands (or_null (named NameRole.Name)) (codes "type") o)
        (IsOptional IsNamed (not_null o)) }
{
    match given_at(members, "type") {
        Some(value) => Ok(Some(read_named(alloc, NameRole::Name, value, "type")?)),
        None => Ok(None),
    }
}
