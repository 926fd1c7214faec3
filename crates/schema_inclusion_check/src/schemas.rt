ghost use Rattle.std.specs.Prelude.{◌≡◌, IfOk, map};
ghost use Rattle.std.specs.List.{find};
ghost use Rattle.std.specs.List.Sorted.{IsStrictlySortedBy};
ghost use Rattle.std.specs.Map.{keys_of};
ghost use Rattle.std.specs.Option.{option_copied, option_map};
ghost use Rattle.cedar_names.specs.Definitions.{same_name};
ghost use Rattle.cedar_names.specs.Meaning.{SchemaMeaning};
ghost use Rattle.cedar_names.specs.Orders.{names_in_order, uids_in_order};
ghost use Rattle.schema_inclusion_values.specs.Admits.{an_entity, a_request, an_action};
ghost use Rattle.schema_inclusion_values.specs.Lost.{lost_entity, lost_request, lost_action, first_of_each, lost};
ghost use Rattle.schema_inclusion_values.specs.Lost.{new_action};
ghost use Rattle.schema_inclusion_values.specs.Seen.{schema_value};
ghost use Rattle.schema_inclusion_check.specs.Raw.{raw_entity, raw_action, raw_meaning};
ghost use Rattle.schema_inclusion_check.specs.Told.{IsTold};

use crate::entities::lost_entity_to;
use crate::ids_between::told_ids;
use crate::parts::{action_parts, entity_parts};
use crate::requests::{lost_action_to, lost_request_to};
use crate::seek::seek;
use schema_build_types::{ActionEntry, EntityTypeEntry};
use schema_inclusion_types::Ids;
use schema_inclusion_values::SchemaValue;
use std::alloc::{AllocError, Global};

/// The entity types and the actions of a built schema, lent in the order of their names.
#[derive(Clone, Copy)]
pub struct Lent<'a> {
    pub entities: &'a [EntityTypeEntry],
    pub actions: &'a [ActionEntry],
}

// An entity of the old type that the new schema does not admit, by the entry of its name there.
fn lost_entity(
    alloc: Global,
    ids: &Ids,
    old: &EntityTypeEntry,
    new: Option<&EntityTypeEntry>,
) -> Result<Option<SchemaValue>, AllocError>
    ensures { IfOk result (λ found. (m n : SchemaMeaning) → IsTold ids.now.rows m n
        → option_map raw_entity (option_copied new.entry)
        ≡ find (λ e. same_name e.name (raw_entity old.now).name) n.entities
        → option_map schema_value found ≡ option_map an_entity (lost_entity m n (raw_entity old.now))) }
{
    let old = entity_parts(old);
    if old.is_external {
        return Ok(None);
    }
    match new {
        None => lost_entity_to(alloc, ids, &old, None),
        Some(new) => lost_entity_to(alloc, ids, &old, Some(&entity_parts(new))),
    }
}

// The first entity of the old types that the new schema does not admit.
fn first_lost_entity(
    alloc: Global,
    ids: &Ids,
    old: &[EntityTypeEntry],
    new: &[EntityTypeEntry],
) -> Result<Option<SchemaValue>, AllocError>
    requires old_sorted { IsStrictlySortedBy (λ a b. names_in_order a.name b.name) (keys_of old.now) }
    requires new_sorted { IsStrictlySortedBy (λ a b. names_in_order a.name b.name) (keys_of new.now) }
    ensures { IfOk result (λ found. (m n : SchemaMeaning) → IsTold ids.now.rows m n
        → map raw_entity new.now ≡ n.entities → option_map schema_value found
        ≡ option_map an_entity (first_of_each (lost_entity m n) (map raw_entity old.now))) }
{
    let mut next = 0;
    for entry in old {
        let (place, found) = seek(new, next, &entry.name);
        if let Some(value) = lost_entity(alloc, ids, entry, found)? {
            return Ok(Some(value));
        }
        next = place;
    }
    Ok(None)
}

// A request of the old action that the new schema does not admit, by the entry of its name there.
fn lost_request(
    alloc: Global,
    ids: &Ids,
    old: &ActionEntry,
    new: Option<&ActionEntry>,
) -> Result<Option<SchemaValue>, AllocError>
    ensures { IfOk result (λ found. (m n : SchemaMeaning) → IsTold ids.now.rows m n
        → option_map raw_action (option_copied new.entry) ≡ new_action m n (raw_action old.now)
        → option_map schema_value found ≡ option_map a_request (lost_request m n (raw_action old.now))) }
{
    let old = action_parts(old);
    if old.is_external {
        return Ok(None);
    }
    match new {
        None => lost_request_to(alloc, ids, &old, None),
        Some(new) => lost_request_to(alloc, ids, &old, Some(&action_parts(new))),
    }
}

// The first request of the old actions that the new schema does not admit.
fn first_lost_request(
    alloc: Global,
    ids: &Ids,
    old: &[ActionEntry],
    new: &[ActionEntry],
) -> Result<Option<SchemaValue>, AllocError>
    requires old_sorted { IsStrictlySortedBy uids_in_order (keys_of old.now) }
    requires new_sorted { IsStrictlySortedBy uids_in_order (keys_of new.now) }
    ensures { IfOk result (λ found. (m n : SchemaMeaning) → IsTold ids.now.rows m n
        → map raw_action new.now ≡ n.actions → option_map schema_value found
        ≡ option_map a_request (first_of_each (lost_request m n) (map raw_action old.now))) }
{
    let mut next = 0;
    for entry in old {
        let (place, found) = seek(new, next, &entry.uid);
        if let Some(value) = lost_request(alloc, ids, entry, found)? {
            return Ok(Some(value));
        }
        next = place;
    }
    Ok(None)
}

// The old action with one that it stands below and no longer does, by the entry of its name in the new schema.
fn lost_action(
    alloc: Global,
    old: &ActionEntry,
    new: Option<&ActionEntry>,
) -> Result<Option<SchemaValue>, AllocError>
    ensures { IfOk result (λ found. (m n : SchemaMeaning)
        → option_map raw_action (option_copied new.entry) ≡ new_action m n (raw_action old.now)
        → option_map schema_value found ≡ option_map an_action (lost_action m n (raw_action old.now))) }
{
    let old = action_parts(old);
    match new {
        None => lost_action_to(alloc, &old, None),
        Some(new) => lost_action_to(alloc, &old, Some(&action_parts(new))),
    }
}

// The first of the old actions with one that it stands below and no longer does.
fn first_lost_action(
    alloc: Global,
    old: &[ActionEntry],
    new: &[ActionEntry],
) -> Result<Option<SchemaValue>, AllocError>
    requires old_sorted { IsStrictlySortedBy uids_in_order (keys_of old.now) }
    requires new_sorted { IsStrictlySortedBy uids_in_order (keys_of new.now) }
    ensures { IfOk result (λ found. (m n : SchemaMeaning) → map raw_action new.now ≡ n.actions
        → option_map schema_value found
        ≡ option_map an_action (first_of_each (lost_action m n) (map raw_action old.now))) }
{
    let mut next = 0;
    for entry in old {
        let (place, found) = seek(new, next, &entry.uid);
        if let Some(value) = lost_action(alloc, entry, found)? {
            return Ok(Some(value));
        }
        next = place;
    }
    Ok(None)
}

// The first value that the old schema admits and the new one does not, with ids of the entity types of both: of
// entities, then requests, then ancestors of actions.
fn first_lost(
    alloc: Global,
    ids: &Ids,
    old: &Lent<'_>,
    new: &Lent<'_>,
) -> Result<Option<SchemaValue>, AllocError>
    requires old_entities { IsStrictlySortedBy (λ a b. names_in_order a.name b.name) (keys_of old.now.entities.now) }
    requires new_entities { IsStrictlySortedBy (λ a b. names_in_order a.name b.name) (keys_of new.now.entities.now) }
    requires old_actions { IsStrictlySortedBy uids_in_order (keys_of old.now.actions.now) }
    requires new_actions { IsStrictlySortedBy uids_in_order (keys_of new.now.actions.now) }
    ensures { IfOk result (λ found. IsTold ids.now.rows (raw_meaning old.now.entities.now old.now.actions.now)
        (raw_meaning new.now.entities.now new.now.actions.now) → option_map schema_value found
        ≡ lost (raw_meaning old.now.entities.now old.now.actions.now)
        (raw_meaning new.now.entities.now new.now.actions.now)) }
{
    if let Some(value) = first_lost_entity(alloc, ids, old.entities, new.entities)? {
        return Ok(Some(value));
    }
    if let Some(value) = first_lost_request(alloc, ids, old.actions, new.actions)? {
        return Ok(Some(value));
    }
    first_lost_action(alloc, old.actions, new.actions)
}

/// The first value that the old schema admits and the new one does not.
pub fn lost_between(
    alloc: Global,
    old: &Lent<'_>,
    new: &Lent<'_>,
) -> Result<Option<SchemaValue>, AllocError>
    requires old_entities { IsStrictlySortedBy (λ a b. names_in_order a.name b.name) (keys_of old.now.entities.now) }
    requires new_entities { IsStrictlySortedBy (λ a b. names_in_order a.name b.name) (keys_of new.now.entities.now) }
    requires old_actions { IsStrictlySortedBy uids_in_order (keys_of old.now.actions.now) }
    requires new_actions { IsStrictlySortedBy uids_in_order (keys_of new.now.actions.now) }
    ensures { IfOk result (λ found. option_map schema_value found
        ≡ lost (raw_meaning old.now.entities.now old.now.actions.now)
        (raw_meaning new.now.entities.now new.now.actions.now)) }
{
    let ids = told_ids(alloc, old, new)?;
    first_lost(alloc, &ids, old, new)
}
