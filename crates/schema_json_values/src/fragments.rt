// Namespaces and fragments.
ghost use Rattle.std.specs.Prelude.{◌≡◌, IfOk, OnOk, map, codes};
ghost use Rattle.std.specs.Str.{encode_utf8_all};
ghost use Rattle.serde_json.specs.Data.{Data, no_members};
ghost use Rattle.serde_json.specs.View.{view, members_view};
ghost use Rattle.schema_json_values.specs.TypeValues.{put_all};
ghost use Rattle.schema_json_values.specs.FragmentValues.{common_entry, entity_entry, action_entry, with_object};
ghost use Rattle.schema_json_values.specs.FragmentValues.{namespace_value, namespace_entry, namespace_bytes};
ghost use Rattle.schema_json_values.specs.FragmentValues.{json_value};

use crate::actions::action_value;
use crate::annotations::put_annotations;
use crate::entity_types::{common_type_value, entity_type_value};
use crate::leaves::Members;
use cedar_data::Text;
use cedar_identifiers::{Name, NameText, UnreservedId};
use schema_json::{
    ActionType, CommonType, CommonTypeId, EntityType, Fragment, NamespaceDefinition,
};
use serde_json::{Map, Value, put};
use std::alloc::{AllocError, Global};

fn common_members<N: NameText>(
    alloc: Global,
    entries: &[(CommonTypeId, CommonType<N>)],
) -> Result<Members, AllocError>
    ensures { IfOk result (λ m. members_view m.entries
        ≡ put_all (map (common_entry N.components) entries.now) no_members) }
{
    let mut members = Map::new(alloc);
    for (id, common) in entries {
        let value = common_type_value(alloc, common)?;
        put(&mut members, alloc, id.id.as_str(), value)?;
    }
    Ok(members)
}

// Adds the common types, where there are any.
fn put_common_types<N: NameText>(
    members: &mut Members,
    alloc: Global,
    entries: &[(CommonTypeId, CommonType<N>)],
) -> Result<(), AllocError>
    ensures { OnOk result (members_view members.new.entries
        ≡ with_object (codes "commonTypes") (map (common_entry N.components) entries.now)
        (members_view members.old.entries)) }
{
    if entries.len() == 0 {
        return Ok(());
    }
    let common = common_members(alloc, entries)?;
    put(members, alloc, "commonTypes", Value::Object(common))
}

fn entity_members<N: NameText>(
    alloc: Global,
    entries: &[(UnreservedId, EntityType<N>)],
) -> Result<Members, AllocError>
    ensures { IfOk result (λ m. members_view m.entries
        ≡ put_all (map (entity_entry N.components) entries.now) no_members) }
{
    let mut members = Map::new(alloc);
    for (id, entity) in entries {
        let value = entity_type_value(alloc, entity)?;
        put(&mut members, alloc, id.as_str(), value)?;
    }
    Ok(members)
}

fn action_members<N: NameText>(
    alloc: Global,
    entries: &[(Text, ActionType<N>)],
) -> Result<Members, AllocError>
    ensures { IfOk result (λ m. members_view m.entries
        ≡ put_all (map (action_entry N.components) entries.now) no_members) }
{
    let mut members = Map::new(alloc);
    for (id, action) in entries {
        let value = action_value(alloc, action)?;
        put(&mut members, alloc, id.as_str(), value)?;
    }
    Ok(members)
}

fn namespace_value<N: NameText>(
    alloc: Global,
    namespace: &NamespaceDefinition<N>,
) -> Result<Value, AllocError>
    ensures { IfOk result (λ v. view v ≡ namespace_value N.components namespace.now) }
{
    let mut members = Map::new(alloc);
    let entities = entity_members(alloc, namespace.entity_types.as_slice())?;
    put(&mut members, alloc, "entityTypes", Value::Object(entities))?;
    let actions = action_members(alloc, namespace.actions.as_slice())?;
    put(&mut members, alloc, "actions", Value::Object(actions))?;
    put_common_types(&mut members, alloc, namespace.common_types.as_slice())?;
    put_annotations(&mut members, alloc, &namespace.annotations)?;
    Ok(Value::Object(members))
}

/// The text of the name of a namespace, and the empty text for the empty one.
pub fn namespace_text(alloc: Global, name: &Option<Name>) -> Result<Text, AllocError>
    ensures { IfOk result (λ t. encode_utf8_all t ≡ namespace_bytes name.now) }
{
    match name {
        Some(name) => name.text(alloc),
        None => Ok(Text::new(alloc)),
    }
}

fn namespace_members<N: NameText>(
    alloc: Global,
    entries: &[(Option<Name>, NamespaceDefinition<N>)],
) -> Result<Members, AllocError>
    ensures { IfOk result (λ m. members_view m.entries
        ≡ put_all (map (namespace_entry N.components) entries.now) no_members) }
{
    let mut members = Map::new(alloc);
    for (name, namespace) in entries {
        let value = namespace_value(alloc, namespace)?;
        let text = namespace_text(alloc, name)?;
        put(&mut members, alloc, text.as_str(), value)?;
    }
    Ok(members)
}

/// The JSON value of a fragment.
pub fn fragment_value<N: NameText>(
    alloc: Global,
    fragment: &Fragment<N>,
) -> Result<Value, AllocError>
    ensures { IfOk result (λ v. view v ≡ json_value N.components fragment.now) }
{
    Ok(Value::Object(namespace_members(alloc, fragment.0.as_slice())?))
}

/// What is written as JSON.
pub trait WriteJson {
    /// Its JSON value.
    ghost json_value: { Self → Data };

    /// Its JSON value, or an error when out of memory.
    fn to_json_value(&self, alloc: Global) -> Result<Value, AllocError>
        ensures { IfOk result (λ v. view v ≡ json_value self.now) };
}

impl<N: NameText> WriteJson for Fragment<N> {
    ghost json_value = { json_value N.components };

    fn to_json_value(&self, alloc: Global) -> Result<Value, AllocError> {
        fragment_value(alloc, self)
    }
}
