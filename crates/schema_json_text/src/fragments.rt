// Namespaces and fragments.
ghost use Rattle.std.specs.Prelude.{◌≡◌, OnOk, IfOk, map, codes};
ghost use Rattle.std.specs.Str.{encode_utf8_all};
ghost use Rattle.std.specs.Map.{keys_of};
ghost use Rattle.std.specs.List.Sorted.{IsStrictlySortedBy};
ghost use Rattle.serde_json.specs.Written.{compact_text};
ghost use Rattle.cedar_data.specs.Text.{text_cmp};
ghost use Rattle.schema_json_values.specs.TypeValues.{object_of};
ghost use Rattle.schema_json_values.specs.FragmentValues.{common_entry, entity_entry, action_entry};
ghost use Rattle.schema_json_values.specs.FragmentValues.{namespace_value, namespace_entry, json_value};
ghost use Rattle.schema_json_quotes.specs.Adds.{Adds};
ghost use Rattle.schema_json_text.specs.AddsValue.{AddsValue};
ghost use Rattle.schema_json_text.specs.Members.{ahead, object_value, ArePut};
ghost use Rattle.schema_json_text.specs.Places.{placed_entry};

use crate::actions::push_action;
use crate::annotations::push_annotations;
use crate::entity_types::{push_common_type, push_entity_type};
use crate::members::{Member, push_object};
use cedar_data::{Map, Text};
use cedar_identifiers::{Name, NameText, UnreservedId};
use schema_json::{
    ActionType, CommonType, CommonTypeId, EntityType, Fragment, NamespaceDefinition,
};
use schema_json_quotes::pushing::{push, push_char};
use schema_json_values::fragments::namespace_text;
use std::alloc::{AllocError, Global};

impl<N: NameText> Member for (Text, ActionType<N>) {
    ghost entry = { action_entry N.components };

    fn key(&self) -> &str {
        self.0.as_str()
    }

    fn push_value(&self, out: &mut String, alloc: Global) -> Result<(), AllocError> {
        push_action(out, alloc, &self.1)
    }
}

impl<N: NameText> Member for (CommonTypeId, CommonType<N>) {
    ghost entry = { common_entry N.components };

    fn key(&self) -> &str {
        self.0.id.as_str()
    }

    fn push_value(&self, out: &mut String, alloc: Global) -> Result<(), AllocError> {
        push_common_type(out, alloc, &self.1)
    }
}

impl<N: NameText> Member for (UnreservedId, EntityType<N>) {
    ghost entry = { entity_entry N.components };

    fn key(&self) -> &str {
        self.0.as_str()
    }

    fn push_value(&self, out: &mut String, alloc: Global) -> Result<(), AllocError> {
        push_entity_type(out, alloc, &self.1)
    }
}

// Adds the object of the actions.
fn push_actions<N: NameText>(
    out: &mut String,
    alloc: Global,
    entries: &[(Text, ActionType<N>)],
) -> Result<(), AllocError>
    requires { IsStrictlySortedBy text_cmp (keys_of entries.now) }
    ensures { OnOk result (AddsValue out.old out.new (object_of (map (action_entry N.components) entries.now))) }
{
    push_object(out, alloc, entries)
}

// Adds the object of the common types.
fn push_common_types<N: NameText>(
    out: &mut String,
    alloc: Global,
    entries: &[(CommonTypeId, CommonType<N>)],
) -> Result<(), AllocError>
    requires { IsStrictlySortedBy (λ x y. text_cmp x.id.id.text y.id.id.text) (keys_of entries.now) }
    ensures { OnOk result (AddsValue out.old out.new (object_of (map (common_entry N.components) entries.now))) }
{
    push_object(out, alloc, entries)
}

// Adds the object of the entity types.
fn push_entity_types<N: NameText>(
    out: &mut String,
    alloc: Global,
    entries: &[(UnreservedId, EntityType<N>)],
) -> Result<(), AllocError>
    requires { IsStrictlySortedBy (λ x y. text_cmp x.id.text y.id.text) (keys_of entries.now) }
    ensures { OnOk result (AddsValue out.old out.new (object_of (map (entity_entry N.components) entries.now))) }
{
    push_object(out, alloc, entries)
}

// Adds the common types, where there are any, ahead of a further member.
fn push_commons<N: NameText>(
    out: &mut String,
    alloc: Global,
    entries: &[(CommonTypeId, CommonType<N>)],
) -> Result<(), AllocError>
    requires { IsStrictlySortedBy (λ x y. text_cmp x.id.id.text y.id.id.text) (keys_of entries.now) }
    ensures { OnOk result (Adds out.old out.new
        (ahead (codes "commonTypes") (object_value (map (common_entry N.components) entries.now)))) }
{
    if entries.len() == 0 {
        return Ok(());
    }
    push(out, "\"commonTypes\":")?;
    push_common_types(out, alloc, entries)?;
    push_char(out, ',')
}

// Adds a namespace.
fn push_namespace<N: NameText>(
    out: &mut String,
    alloc: Global,
    namespace: &NamespaceDefinition<N>,
) -> Result<(), AllocError>
    ensures { OnOk result (AddsValue out.old out.new (namespace_value N.components namespace.now)) }
{
    push(out, "{\"actions\":")?;
    push_actions(out, alloc, namespace.actions.as_slice())?;
    push_char(out, ',')?;
    push_annotations(out, &namespace.annotations)?;
    push_commons(out, alloc, namespace.common_types.as_slice())?;
    push(out, "\"entityTypes\":")?;
    push_entity_types(out, alloc, namespace.entity_types.as_slice())?;
    push_char(out, '}')
}

impl<N: NameText> Member for (Text, &NamespaceDefinition<N>) {
    ghost entry = { λ p. placed_entry N.components p.0 p.1.now };

    fn key(&self) -> &str {
        self.0.as_str()
    }

    fn push_value(&self, out: &mut String, alloc: Global) -> Result<(), AllocError> {
        push_namespace(out, alloc, self.1)
    }
}

// The namespaces by the texts of their names, which need not rise with the names.
fn by_text<'a, N: NameText>(
    alloc: Global,
    entries: &'a [(Option<Name>, NamespaceDefinition<N>)],
) -> Result<Map<Text, &'a NamespaceDefinition<N>>, AllocError>
    ensures { IfOk result (λ placed. ArePut (map (namespace_entry N.components) entries.now)
        (map (λ p. placed_entry N.components p.0 p.1.now) placed)) }
{
    let mut placed = Vec::with_capacity(alloc, entries.len())?;
    for (name, namespace) in entries {
        let text = namespace_text(alloc, name)?;
        placed.push((text, namespace))?;
    }
    Map::from_entries(alloc, placed)
}

// Adds the object of the namespaces, in the order of the texts.
fn push_namespaces<N: NameText>(
    out: &mut String,
    alloc: Global,
    entries: &[(Option<Name>, NamespaceDefinition<N>)],
) -> Result<(), AllocError>
    ensures { OnOk result (AddsValue out.old out.new (object_of (map (namespace_entry N.components) entries.now))) }
{
    let placed = by_text(alloc, entries)?;
    push_object(out, alloc, placed.as_slice())
}

/// The compact JSON text of a fragment.
pub fn fragment_text<N: NameText>(alloc: Global, fragment: &Fragment<N>) -> Result<Text, AllocError>
    ensures { IfOk result (λ json. encode_utf8_all json ≡ compact_text (json_value N.components fragment.now)) }
{
    let mut out = String::new(alloc);
    push_namespaces(&mut out, alloc, fragment.0.as_slice())?;
    Ok(Text::from_string(out))
}
