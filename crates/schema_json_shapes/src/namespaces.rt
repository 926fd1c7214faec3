// Namespaces and what they declare.
ghost use Rattle.std.specs.Prelude.{◌≡◌, codes};
ghost use Rattle.serde_json.specs.Data.{object};
ghost use Rattle.serde_json.specs.View.{view, members_view};
ghost use Rattle.serde_json.specs.Find.{get_member};
ghost use Rattle.cedar_data.specs.Text.{text_cmp};
ghost use Rattle.schema_json.specs.Orders.{unreserved_cmp, common_cmp};
ghost use Rattle.schema_json_shapes.specs.Walk.{namespace, common_types, entity_types, actions as actions_role};
ghost use Rattle.schema_json_shapes.specs.Walk.{demands, key_demands, object_demands};
ghost use Rattle.schema_json_shapes.specs.Said.{IsId, IsText, IsMap, IsMapOrNone};
ghost use Rattle.schema_json_shapes.specs.Shapes.{IsCommonId, IsCommonType, IsEntityType, IsAction, IsNamespace};
ghost use Rattle.schema_json_shapes.specs.Shapes.{IsNamespaceIn};
ghost use Rattle.schema_json_shapes.specs.Reads.{ReadsValue, Any, field_demands};
ghost use Rattle.schema_json_shapes.specs.Entries.{entry_demands};

use crate::actions::read_action;
use crate::annotations::annotations_at;
use crate::conflicts::check_annotated;
use crate::entity_types::read_entity_type;
use crate::entries::{Entry, read_map};
use crate::fields::{Members, at, check_fields, needed};
use crate::leaves::wrong_type;
use crate::name_role::NameRole;
use crate::names::read_id;
use crate::shape_fault::ShapeFault;
use crate::tables::namespace_fields;
use crate::types::{Typed, read_typed};
use crate::words::TypeSite;
use cedar_data::{Map, Text};
use cedar_identifiers::{RawName, UnreservedId};
use schema_json::{ActionType, CommonType, CommonTypeId, EntityType, NamespaceDefinition};
use serde_json::Value;
use std::alloc::Global;

/// The namespace that the value under the key says, or its first fault.
pub fn read_namespace(
    alloc: Global,
    value: &Value,
    key: &str,
) -> Result<NamespaceDefinition<RawName>, ShapeFault>
    ensures { ReadsValue result (demands namespace key.now (view value.now)) (IsNamespace (view value.now)) }
{
    match value.as_object() {
        Some(members) => read_members(alloc, members, key),
        None => Err(wrong_type(alloc, key)),
    }
}

fn read_members(
    alloc: Global,
    members: &Members,
    key: &str,
) -> Result<NamespaceDefinition<RawName>, ShapeFault>
    ensures { let ms = members_view members.now.entries in
        ReadsValue result (demands namespace key.now (object ms)) (IsNamespaceIn ms) }
{
    let _ = members.len();
    check_members(alloc, members, key)?;
    let declared_actions = needed(members, "actions");
    let actions = read_actions(alloc, declared_actions)?;
    let annotations = annotations_at(alloc, members)?;
    let common_types = common_types_at(alloc, members)?;
    let declared_types = needed(members, "entityTypes");
    let entity_types = read_entity_types(alloc, declared_types)?;
    Ok(NamespaceDefinition {
        common_types,
        entity_types,
        actions,
        annotations,
    })
}

// What the object itself must keep.
fn check_members(alloc: Global, members: &Members, key: &str) -> Result<(), ShapeFault>
    ensures { ReadsValue result (object_demands namespace key.now (members_view members.now.entries)) Any }
{
    check_fields(alloc, namespace_fields(), members)?;
    check_annotated(members, key)
}

fn read_actions(alloc: Global, value: &Value) -> Result<Map<Text, ActionType<RawName>>, ShapeFault>
    ensures { ReadsValue result (demands actions_role (codes "actions") (view value.now))
        (IsMap text_cmp IsText IsAction (view value.now)) }
{
    read_map::<Actions>(alloc, value, "actions")
}

// The entries of `actions`.
struct Actions;

impl Entry for Actions {
    type Key = Text;

    type Item = ActionType<RawName>;

    ghost asks = { entry_demands actions_role };

    ghost is_key = { IsText };

    ghost is_item = { IsAction };

    fn read(
        alloc: Global,
        key: &str,
        value: &Value,
    ) -> Result<(Text, ActionType<RawName>), ShapeFault> {
        let action = read_action(alloc, value, key)?;
        Ok((Text::from_str(alloc, key)?, action))
    }
}

fn common_types_at(
    alloc: Global,
    members: &Members,
) -> Result<Map<CommonTypeId, CommonType<RawName>>, ShapeFault>
    ensures { let o = get_member (codes "commonTypes") (members_view members.now.entries) in
        ReadsValue result (field_demands common_types (codes "commonTypes") o)
        (IsMapOrNone common_cmp IsCommonId IsCommonType o) }
{
    match at(members, "commonTypes") {
        Some(value) => read_common_types(alloc, value),
        None => Ok(Map::new(alloc)),
    }
}

fn read_common_types(
    alloc: Global,
    value: &Value,
) -> Result<Map<CommonTypeId, CommonType<RawName>>, ShapeFault>
    ensures { ReadsValue result (demands common_types (codes "commonTypes") (view value.now))
        (IsMap common_cmp IsCommonId IsCommonType (view value.now)) }
{
    read_map::<CommonTypes>(alloc, value, "commonTypes")
}

// The entries of `commonTypes`.
struct CommonTypes;

impl Entry for CommonTypes {
    type Key = CommonTypeId;

    type Item = CommonType<RawName>;

    ghost asks = { entry_demands common_types };

    ghost is_key = { IsCommonId };

    ghost is_item = { IsCommonType };

    fn read(
        alloc: Global,
        key: &str,
        value: &Value,
    ) -> Result<(CommonTypeId, CommonType<RawName>), ShapeFault> {
        let id = read_common_id(alloc, key)?;
        let common = common_type(read_typed(alloc, value, key, TypeSite::Common)?);
        Ok((id, common))
    }
}

fn common_type(typed: Typed) -> CommonType<RawName>
    ensures { result ≡ record { ty = typed.ty; annotations = typed.annotations; loc = None } }
{
    let Typed {
        ty,
        annotations,
        ..
    } = typed;
    CommonType {
        ty,
        annotations,
        loc: None,
    }
}

/// The name of a common type that the key is, or why it is none.
pub fn read_common_id(alloc: Global, key: &str) -> Result<CommonTypeId, ShapeFault>
    ensures { ReadsValue result (key_demands common_types key.now) (IsCommonId key.now) }
{
    let id = read_id(alloc, NameRole::Id, key)?;
    match CommonTypeId::new(id) {
        Ok(id) => Ok(id),
        Err(reserved) => Err(ShapeFault::ReservedCommonType(reserved.id)),
    }
}

fn read_entity_types(
    alloc: Global,
    value: &Value,
) -> Result<Map<UnreservedId, EntityType<RawName>>, ShapeFault>
    ensures { ReadsValue result (demands entity_types (codes "entityTypes") (view value.now))
        (IsMap unreserved_cmp IsId IsEntityType (view value.now)) }
{
    read_map::<EntityTypes>(alloc, value, "entityTypes")
}

// The entries of `entityTypes`.
struct EntityTypes;

impl Entry for EntityTypes {
    type Key = UnreservedId;

    type Item = EntityType<RawName>;

    ghost asks = { entry_demands entity_types };

    ghost is_key = { IsId };

    ghost is_item = { IsEntityType };

    fn read(
        alloc: Global,
        key: &str,
        value: &Value,
    ) -> Result<(UnreservedId, EntityType<RawName>), ShapeFault> {
        let id = read_id(alloc, NameRole::Id, key)?;
        let entity = read_entity_type(alloc, value, key)?;
        Ok((id, entity))
    }
}
