ghost use Rattle.std.specs.Prelude.{◌≡◌, ◌++◌, ℕ, List, [], map, filter, OnOk, IfOk, IfErr};
ghost use Rattle.std.specs.Cmp.Lexicographic.{slice_cmp};
ghost use Rattle.std.specs.List.{AllZip, flat_map};
ghost use Rattle.std.specs.List.Sorted.{IsStrictlySortedBy};
ghost use Rattle.cedar_data.specs.Text.{text_cmp};
ghost use Rattle.cedar_identifiers.specs.Names.{components_of};
ghost use Rattle.cedar_names.specs.CanonicalText.{namespace};
ghost use Rattle.schema_build_types.specs.Content.{entity_content, action_content};
ghost use Rattle.schema_build_text.specs.Readings.{schema_reading, entity_reading, action_reading};
ghost use Rattle.schema_build_recovered.specs.Lent.{entities_at, actions_at, lent_content, all_words};
ghost use Rattle.schema_build_recovered.specs.Places.{words_of, on_side};
ghost use Rattle.schema_build_recovered.specs.Recovered.{IsMapOf, IsRecoveredEntity, IsRecoveredAction};
ghost use Rattle.schema_build_recovered.specs.Recovered.{IsRecoveredNamespace};
ghost use Rattle.schema_build_types.specs.Lacks.{entity_lacks, context_lacks, namespace_lacks};
ghost use Rattle.schema_build_recovered_types.specs.FirstLacks.{IsFirstLack};

use crate::actions::recovered_action;
use crate::entity_types::recovered_entity_type;
use crate::names::{Namespace, are_one, is_on_side, key_of, namespace_of};
use cedar_data::{Map, Text};
use cedar_identifiers::{Annotations, Name, RawName, UnreservedId};
use schema_build_errors::RecoveryError;
use schema_build_types::{ActionEntry, EntityTypeEntry};
use schema_json::{ActionType, EntityType, NamespaceDefinition};
use std::alloc::{AllocError, Global};

/// What stands in a namespace.
pub trait Item {
    /// The words of the namespace.
    ghost home_words: { Self → List (List ℕ) };

    /// The namespace that it stands in.
    fn home(&self) -> Namespace<'_>
        ensures { words_of result.words ≡ home_words self.now };
}

impl Item for EntityTypeEntry {
    ghost home_words = { λ e. namespace (components_of e.0.name) };

    fn home(&self) -> Namespace<'_> {
        namespace_of(&self.name)
    }
}

impl Item for ActionEntry {
    ghost home_words = { λ a. namespace (components_of a.0.ty.name) };

    fn home(&self) -> Namespace<'_> {
        namespace_of(&self.uid.ty)
    }
}

// Those of the items whose namespaces are below the pivot, or those whose namespaces are not.
fn side<'a, T: Item>(
    alloc: Global,
    items: &Vec<&'a T>,
    pivot: Namespace<'a>,
    below: bool,
) -> Result<Vec<&'a T>, AllocError>
    ensures { IfOk result (λ those. map (λ x. x.now) those.items
        ≡ filter (λ x. on_side below (words_of pivot.entry.words) (T.home_words x))
        (map (λ x. x.now) items.now.items)) }
{
    let mut those = Vec::new(alloc);
    for at in 0..items.len() {
        let item = items[at];
        if is_on_side(below, pivot, item.home()) {
            those.push(item)?;
        }
    }
    Ok(those)
}

// The entity types of a namespace, by their basenames.
fn recovered_entity_types<'a>(
    alloc: Global,
    home: Namespace<'a>,
    entities: &Vec<&'a EntityTypeEntry>,
) -> Result<Map<UnreservedId, EntityType<RawName>>, RecoveryError>
    ensures recovered { IfOk result (IsMapOf (λ a b. text_cmp a.id.text b.id.text) IsRecoveredEntity
        (map (λ e. entity_reading (entity_content e)) (entities_at home.entry.words entities.now.items))) }
    ensures whole { OnOk result (flat_map (λ e. entity_lacks (entity_content e))
        (entities_at home.entry.words entities.now.items) ≡ []) }
    ensures lack { IfErr result (IsFirstLack (flat_map (λ e. entity_lacks (entity_content e))
        (entities_at home.entry.words entities.now.items))) }
{
    let mut rows = Vec::new(alloc);
    for at in 0..entities.len() {
        let entry = entities[at];
        if are_one(home, namespace_of(&entry.name)) {
            let row = recovered_entity_type(alloc, entry)?;
            rows.push(row)?;
        }
    }
    Ok(Map::from_entries(alloc, rows)?)
}

// The actions of a namespace, by their ids.
fn recovered_actions<'a>(
    alloc: Global,
    home: Namespace<'a>,
    actions: &Vec<&'a ActionEntry>,
) -> Result<Map<Text, ActionType<RawName>>, RecoveryError>
    ensures recovered { IfOk result (IsMapOf text_cmp IsRecoveredAction
        (map (λ a. action_reading (action_content a)) (actions_at home.entry.words actions.now.items))) }
    ensures whole { OnOk result (flat_map (λ a. context_lacks (action_content a).context)
        (actions_at home.entry.words actions.now.items) ≡ []) }
    ensures lack { IfErr result (IsFirstLack (flat_map (λ a. context_lacks (action_content a).context)
        (actions_at home.entry.words actions.now.items))) }
{
    let mut rows = Vec::new(alloc);
    for at in 0..actions.len() {
        let entry = actions[at];
        if are_one(home, namespace_of(&entry.uid.ty)) {
            let row = recovered_action(alloc, entry)?;
            rows.push(row)?;
        }
    }
    Ok(Map::from_entries(alloc, rows)?)
}

// One namespace, with those of the entity types and actions that stand in it.
fn recovered_namespace<'a>(
    alloc: Global,
    home: Namespace<'a>,
    entities: &Vec<&'a EntityTypeEntry>,
    actions: &Vec<&'a ActionEntry>,
) -> Result<(Option<Name>, NamespaceDefinition<RawName>), RecoveryError>
    ensures recovered { IfOk result (IsRecoveredNamespace
        (schema_reading (lent_content entities.now.items actions.now.items)) (words_of home.entry.words)) }
    ensures whole { OnOk result (namespace_lacks (lent_content entities.now.items actions.now.items)
        (words_of home.entry.words) ≡ []) }
    ensures lack { IfErr result (IsFirstLack (namespace_lacks (lent_content entities.now.items actions.now.items)
        (words_of home.entry.words))) }
{
    let entity_types = recovered_entity_types(alloc, home, entities)?;
    let actions = recovered_actions(alloc, home, actions)?;
    let key = key_of(alloc, home)?;
    let annotations = Annotations::new(alloc);
    Ok((
        key,
        NamespaceDefinition {
            common_types: Map::new(alloc),
            entity_types,
            actions,
            annotations,
        },
    ))
}

/// Adds the namespaces, which rise, each with those of the entity types and actions that stand in it. Half of the
/// namespaces are below the one in the middle, and so are their items.
pub fn recover_namespaces<'a>(
    alloc: Global,
    namespaces: &[Namespace<'a>],
    entities: &Vec<&'a EntityTypeEntry>,
    actions: &Vec<&'a ActionEntry>,
    found: &mut Vec<(Option<Name>, NamespaceDefinition<RawName>)>,
) -> Result<(), RecoveryError>
    requires { IsStrictlySortedBy (slice_cmp text_cmp) (all_words namespaces.now) }
    ensures recovered { OnOk result ((rows : _) × (found.new.items ≡ found.old.items ++ rows)
        × AllZip (IsRecoveredNamespace (schema_reading (lent_content entities.now.items actions.now.items)))
        (all_words namespaces.now) rows) }
    ensures whole { OnOk result (flat_map (namespace_lacks (lent_content entities.now.items actions.now.items))
        (all_words namespaces.now) ≡ []) }
    ensures lack { IfErr result (IsFirstLack
        (flat_map (namespace_lacks (lent_content entities.now.items actions.now.items)) (all_words namespaces.now))) }
{
    if namespaces.is_empty() {
        return Ok(());
    }
    if namespaces.len() == 1 {
        let row = recovered_namespace(alloc, namespaces[0], entities, actions)?;
        found.push(row)?;
        return Ok(());
    }
    let (lower, upper) = namespaces.split_at(namespaces.len() / 2);
    let pivot = upper[0];
    let those = side(alloc, entities, pivot, true)?;
    let acts = side(alloc, actions, pivot, true)?;
    recover_namespaces(alloc, lower, &those, &acts, found)?;
    let those = side(alloc, entities, pivot, false)?;
    let acts = side(alloc, actions, pivot, false)?;
    recover_namespaces(alloc, upper, &those, &acts, found)
}
