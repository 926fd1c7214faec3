// Actions.
ghost use Rattle.std.specs.Prelude.{◌≡◌, IfOk, OnOk, map};
ghost use Rattle.serde_json.specs.Data.{no_members};
ghost use Rattle.serde_json.specs.View.{view, members_view};
ghost use Rattle.schema_json_values.specs.TypeValues.{put_all};
ghost use Rattle.schema_json_values.specs.FragmentValues.{with_attribute_names, attribute_name_entry, applies_to_value};
ghost use Rattle.schema_json_values.specs.FragmentValues.{with_applies_to, with_type, action_id_value, with_parents};
ghost use Rattle.schema_json_values.specs.FragmentValues.{list_of, action_value};

use crate::annotations::put_annotations;
use crate::entity_types::put_shape;
use crate::leaves::{Members, name_value, names_value, put_flag, text_value};
use cedar_data::{List, Set, Text};
use cedar_identifiers::NameText;
use schema_json::{ActionEntityUID, ActionType, ApplySpec};
use serde_json::{Map, Value, put};
use std::alloc::{AllocError, Global};

// Adds the names of the attributes, each with null.
fn put_attributes(
    members: &mut Members,
    alloc: Global,
    attributes: &Option<Set<Text>>,
) -> Result<(), AllocError>
    ensures { OnOk result (members_view members.new.entries
        ≡ with_attribute_names attributes.now (members_view members.old.entries)) }
{
    match attributes {
        Some(names) => {
            let value = Value::Object(null_members(alloc, names.as_slice())?);
            put(members, alloc, "attributes", value)
        }
        None => Ok(()),
    }
}

fn null_members(alloc: Global, names: &[Text]) -> Result<Members, AllocError>
    ensures { IfOk result (λ m. members_view m.entries ≡ put_all (map attribute_name_entry names.now) no_members) }
{
    let mut members = Map::new(alloc);
    for name in names {
        put(&mut members, alloc, name.as_str(), Value::Null)?;
    }
    Ok(members)
}

fn applies_to_value<N: NameText>(
    alloc: Global,
    applies_to: &ApplySpec<N>,
) -> Result<Value, AllocError>
    ensures { IfOk result (λ v. view v ≡ applies_to_value N.components applies_to.now) }
{
    let mut members = Map::new(alloc);
    let resources = names_value(alloc, applies_to.resource_types.as_slice())?;
    put(&mut members, alloc, "resourceTypes", resources)?;
    let principals = names_value(alloc, applies_to.principal_types.as_slice())?;
    put(&mut members, alloc, "principalTypes", principals)?;
    put_shape(&mut members, alloc, "context", &applies_to.context.0)?;
    Ok(Value::Object(members))
}

fn put_applies_to<N: NameText>(
    members: &mut Members,
    alloc: Global,
    applies_to: &Option<ApplySpec<N>>,
) -> Result<(), AllocError>
    ensures { OnOk result (members_view members.new.entries ≡ with_applies_to N.components applies_to.now
        (members_view members.old.entries)) }
{
    match applies_to {
        Some(applies_to) => {
            let value = applies_to_value(alloc, applies_to)?;
            put(members, alloc, "appliesTo", value)
        }
        None => Ok(()),
    }
}

// Adds the type of an action, where it is written.
fn put_type<N: NameText>(
    members: &mut Members,
    alloc: Global,
    ty: &Option<N>,
) -> Result<(), AllocError>
    ensures { OnOk result (members_view members.new.entries
        ≡ with_type N.components ty.now (members_view members.old.entries)) }
{
    match ty {
        Some(name) => {
            let value = name_value(alloc, name)?;
            put(members, alloc, "type", value)
        }
        None => Ok(()),
    }
}

fn action_id_value<N: NameText>(
    alloc: Global,
    action: &ActionEntityUID<N>,
) -> Result<Value, AllocError>
    ensures { IfOk result (λ v. view v ≡ action_id_value N.components action.now) }
{
    let mut members = Map::new(alloc);
    let id = text_value(alloc, action.id.as_str())?;
    put(&mut members, alloc, "id", id)?;
    put_type(&mut members, alloc, &action.ty)?;
    Ok(Value::Object(members))
}

fn action_ids_value<N: NameText>(
    alloc: Global,
    actions: &[ActionEntityUID<N>],
) -> Result<Value, AllocError>
    ensures { IfOk result (λ v. view v ≡ list_of (map (action_id_value N.components) actions.now)) }
{
    let mut items = Vec::new(alloc);
    for action in actions {
        items.push(action_id_value(alloc, action)?)?;
    }
    Ok(Value::Array(items))
}

fn put_parents<N: NameText>(
    members: &mut Members,
    alloc: Global,
    parents: &Option<List<ActionEntityUID<N>>>,
) -> Result<(), AllocError>
    ensures { OnOk result (members_view members.new.entries ≡ with_parents N.components parents.now
        (members_view members.old.entries)) }
{
    match parents {
        Some(actions) => {
            let value = action_ids_value(alloc, actions.as_slice())?;
            put(members, alloc, "memberOf", value)
        }
        None => Ok(()),
    }
}

/// The JSON value of an action.
pub fn action_value<N: NameText>(alloc: Global, action: &ActionType<N>) -> Result<Value, AllocError>
    ensures { IfOk result (λ v. view v ≡ action_value N.components action.now) }
{
    let mut members = Map::new(alloc);
    put_attributes(&mut members, alloc, &action.attributes)?;
    put_applies_to(&mut members, alloc, &action.applies_to)?;
    put_parents(&mut members, alloc, &action.member_of)?;
    put_flag(&mut members, alloc, action.external, "external", true)?;
    put_annotations(&mut members, alloc, &action.annotations)?;
    Ok(Value::Object(members))
}
