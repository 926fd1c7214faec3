// Namespaces and what they declare.
ghost use Rattle.std.specs.Prelude.{codes};
ghost use Rattle.serde_json.specs.View.{view, members_view};
ghost use Rattle.serde_json.specs.Find.{get_member};
ghost use Rattle.cedar_data.specs.Text.{text_cmp};
ghost use Rattle.schema_json.specs.Orders.{unreserved_cmp, common_cmp};
ghost use Rattle.schema_json_shapes.specs.Said.{IsId, IsText, IsMap, IsMapOrNone};
ghost use Rattle.schema_json_shapes.specs.Shapes.{IsCommonId};
ghost use Rattle.schema_json_shapes.specs.Reads.{ReadsValue};
ghost use Rattle.schema_json_shapes.specs.Entries.{each_entry, of_object};
ghost use Rattle.schema_compat_shapes.specs.OldWalk.{at_field, old_action_demands, old_common_type_demands};
ghost use Rattle.schema_compat_shapes.specs.OldWalk.{old_entity_type_demands, old_namespace_demands};
ghost use Rattle.schema_compat_shapes.specs.OldWalk.{old_namespace_members};
ghost use Rattle.schema_compat_shapes.specs.OldParts.{IsOldType, IsOldEntityType, IsOldAction, IsOldNamespace};
ghost use Rattle.schema_compat_shapes.specs.OldParts.{IsOldNamespaceIn};

use crate::actions::read_action;
use crate::entity_types::read_entity_type;
use crate::shapes::read_type_value;
use crate::tables::namespace_fields;
use cedar_data::{Map, Text};
use cedar_identifiers::UnreservedId;
use schema_compat_types::{ActionType, EntityType, NamespaceDefinition, SchemaType};
use schema_json::CommonTypeId;
use schema_json_shapes::entries::{Entry, read_map};
use schema_json_shapes::fields::{Members, at, check_fields, needed};
use schema_json_shapes::leaves::wrong_type;
use schema_json_shapes::names::read_id;
use schema_json_shapes::namespaces::read_common_id;
use schema_json_shapes::{NameRole, ShapeFault};
use serde_json::Value;
use std::alloc::Global;

// The namespace that the value under the key says in the deprecated form, or its first fault.
pub(crate) fn read_namespace(
    alloc: Global,
    value: &Value,
    key: &str,
) -> Result<NamespaceDefinition, ShapeFault>
    ensures { ReadsValue result (old_namespace_demands key.now (view value.now)) (IsOldNamespace (view value.now)) }
{
    match value.as_object() {
        Some(members) => read_members(alloc, members),
        None => Err(wrong_type(alloc, key)),
    }
}

fn read_members(alloc: Global, members: &Members) -> Result<NamespaceDefinition, ShapeFault>
    ensures { let ms = members_view members.now.entries in
        ReadsValue result (old_namespace_members ms) (IsOldNamespaceIn ms) }
{
    check_fields(alloc, namespace_fields(), members)?;
    let declared_actions = needed(members, "actions");
    let actions = read_actions(alloc, declared_actions)?;
    let common_types = common_types_at(alloc, members)?;
    let declared_types = needed(members, "entityTypes");
    let entity_types = read_entity_types(alloc, declared_types)?;
    Ok(NamespaceDefinition {
        common_types,
        entity_types,
        actions,
    })
}

fn read_actions(alloc: Global, value: &Value) -> Result<Map<Text, ActionType>, ShapeFault>
    ensures { ReadsValue result (of_object (each_entry old_action_demands) (codes "actions") (view value.now))
        (IsMap text_cmp IsText IsOldAction (view value.now)) }
{
    read_map::<Actions>(alloc, value, "actions")
}

// The entries of `actions`.
struct Actions;

impl Entry for Actions {
    type Key = Text;

    type Item = ActionType;

    ghost asks = { old_action_demands };

    ghost is_key = { IsText };

    ghost is_item = { IsOldAction };

    fn read(alloc: Global, key: &str, value: &Value) -> Result<(Text, ActionType), ShapeFault> {
        let action = read_action(alloc, value, key)?;
        Ok((Text::from_str(alloc, key)?, action))
    }
}

fn common_types_at(
    alloc: Global,
    members: &Members,
) -> Result<Map<CommonTypeId, SchemaType>, ShapeFault>
    ensures { let o = get_member (codes "commonTypes") (members_view members.now.entries) in
        ReadsValue result (at_field (of_object (each_entry old_common_type_demands)) (codes "commonTypes") o)
        (IsMapOrNone common_cmp IsCommonId IsOldType o) }
{
    match at(members, "commonTypes") {
        Some(value) => read_common_types(alloc, value),
        None => Ok(Map::new(alloc)),
    }
}

fn read_common_types(
    alloc: Global,
    value: &Value,
) -> Result<Map<CommonTypeId, SchemaType>, ShapeFault>
    ensures { ReadsValue result (of_object (each_entry old_common_type_demands) (codes "commonTypes") (view value.now))
        (IsMap common_cmp IsCommonId IsOldType (view value.now)) }
{
    read_map::<CommonTypes>(alloc, value, "commonTypes")
}

// The entries of `commonTypes`.
struct CommonTypes;

impl Entry for CommonTypes {
    type Key = CommonTypeId;

    type Item = SchemaType;

    ghost asks = { old_common_type_demands };

    ghost is_key = { IsCommonId };

    ghost is_item = { IsOldType };

    fn read(
        alloc: Global,
        key: &str,
        value: &Value,
    ) -> Result<(CommonTypeId, SchemaType), ShapeFault> {
        let id = read_common_id(alloc, key)?;
        let ty = read_type_value(alloc, value, key)?;
        Ok((id, ty))
    }
}

fn read_entity_types(
    alloc: Global,
    value: &Value,
) -> Result<Map<UnreservedId, EntityType>, ShapeFault>
    ensures { ReadsValue result (of_object (each_entry old_entity_type_demands) (codes "entityTypes") (view value.now))
        (IsMap unreserved_cmp IsId IsOldEntityType (view value.now)) }
{
    read_map::<EntityTypes>(alloc, value, "entityTypes")
}

// The entries of `entityTypes`.
struct EntityTypes;

impl Entry for EntityTypes {
    type Key = UnreservedId;

    type Item = EntityType;

    ghost asks = { old_entity_type_demands };

    ghost is_key = { IsId };

    ghost is_item = { IsOldEntityType };

    fn read(
        alloc: Global,
        key: &str,
        value: &Value,
    ) -> Result<(UnreservedId, EntityType), ShapeFault> {
        let id = read_id(alloc, NameRole::Id, key)?;
        let entity = read_entity_type(alloc, value, key)?;
        Ok((id, entity))
    }
}
