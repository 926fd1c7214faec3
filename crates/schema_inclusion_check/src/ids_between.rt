ghost use Rattle.std.specs.Prelude.{◌≡◌, ◌≤◌, ◌++◌, true, IfOk, Some, map, length};
ghost use Rattle.std.specs.List.{list_any, find, AllByRecursion};
ghost use Rattle.std.specs.List.Sorted.{IsStrictlySortedBy};
ghost use Rattle.std.specs.Map.{keys_of};
ghost use Rattle.std.specs.Option.{option_copied, option_map};
ghost use Rattle.cedar_identifiers.specs.Names.{components_of};
ghost use Rattle.cedar_names.specs.Definitions.{same_name};
ghost use Rattle.cedar_names.specs.Orders.{names_in_order, uids_in_order};
ghost use Rattle.schema_inclusion_values.specs.Ids.{action_ids, with_ids, first_id, lost_id};
ghost use Rattle.schema_inclusion_check.specs.Raw.{raw_entity, raw_action, raw_meaning};
ghost use Rattle.schema_inclusion_check.specs.Rows.{row_names, CoverEntities, CoverTypes, ids_at, ids_found, IsRow};
ghost use Rattle.schema_inclusion_check.specs.Rows.{AreTypesBelow};
ghost use Rattle.schema_inclusion_check.specs.Told.{texts_now, IsTold};

use crate::choices::{lend_ids, lost_id};
use crate::parts::entity_parts;
use crate::schemas::Lent;
use crate::seek::{first_from, seek};
use cedar_data::{CloneIn, Map, Text};
use cedar_identifiers::Name;
use schema_build_types::{ActionEntry, EntityTypeEntry};
use schema_inclusion_types::{Ids, TypeIds, same_name};
use std::alloc::{AllocError, Global};
use std::cmp::Ordering;

// Where the actions begin whose types are not less than this one, among actions in order, found by halving.
fn first_of_type(actions: &[ActionEntry], ty: &Name) -> usize
    requires { IsStrictlySortedBy uids_in_order (keys_of actions.now) }
    ensures below { AreTypesBelow actions.now result ty.now }
    ensures within { result ≤ length actions.now }
{
    let mut low = 0;
    let mut high = actions.len();
    while low < high {
        let middle = low + (high - low) / 2;
        let action = &actions[middle];
        match action.uid.ty.cmp(ty) {
            Ordering::Less => low = middle + 1,
            Ordering::Equal => high = middle,
            Ordering::Greater => high = middle,
        }
    }
    low
}

// The ids of the actions of the type, among actions in order.
fn ids_of_type<'a>(
    alloc: Global,
    actions: &'a [ActionEntry],
    ty: &Name,
) -> Result<Vec<&'a Text>, AllocError>
    requires { IsStrictlySortedBy uids_in_order (keys_of actions.now) }
    ensures { IfOk result (λ ids. texts_now ids.items
        ≡ action_ids (components_of ty.now.name) (map raw_action actions.now)) }
{
    let mut ids = Vec::new(alloc);
    let mut at = first_of_type(actions, ty);
    while at < actions.len() {
        let action = &actions[at];
        match action.uid.ty.cmp(ty) {
            Ordering::Less => {}
            Ordering::Equal => ids.push(&action.uid.eid.0)?,
            Ordering::Greater => return Ok(ids),
        }
        at += 1;
    }
    Ok(ids)
}

// These ids, and the others behind them.
fn joined_ids<'a>(mut ids: Vec<&'a Text>, more: &[&'a Text]) -> Result<Vec<&'a Text>, AllocError>
    ensures { IfOk result (λ all. texts_now all.items ≡ texts_now ids.entry.items ++ texts_now more.now) }
{
    for id in more {
        ids.push(*id)?;
    }
    Ok(ids)
}

// The ids of the entity type, where there is one, and of the actions of its name, if they can be listed.
fn all_ids<'a>(
    alloc: Global,
    entity: Option<&'a EntityTypeEntry>,
    actions: Vec<&'a Text>,
) -> Result<Option<Vec<&'a Text>>, AllocError>
    ensures { IfOk result (λ ids. option_map (λ v. texts_now v.items) ids
        ≡ with_ids (ids_at (option_map raw_entity (option_copied entity.entry))) (Some
        (texts_now actions.entry.items))) }
{
    match entity {
        None => Ok(Some(actions)),
        Some(entity) => match entity_parts(entity).choices {
            None => Ok(None),
            Some(choices) => Ok(Some(joined_ids(lend_ids(alloc, choices)?, actions.as_slice())?)),
        },
    }
}

// The first id, where ids are listed; else the empty text.
fn first_of(alloc: Global, ids: &Option<Vec<&Text>>) -> Result<Text, AllocError>
    ensures { IfOk result (λ id. id ≡ first_id (option_map (λ v. texts_now v.items) ids.now)) }
{
    match ids {
        None => Ok(Text::new(alloc)),
        Some(ids) => match ids.as_slice().first() {
            None => Ok(Text::new(alloc)),
            Some(id) => id.clone_in(alloc),
        },
    }
}

// An id of the type, and one that the new ids do not allow.
fn row_of(
    alloc: Global,
    name: &Name,
    old: &Option<Vec<&Text>>,
    new: &Option<Vec<&Text>>,
) -> Result<(Name, TypeIds), AllocError>
    ensures { IfOk result (λ r. (r.0 ≡ name.now) × (r.1.id ≡ first_id (option_map (λ v. texts_now v.items) old.now))
        × (r.1.lost ≡ lost_id (option_map (λ v. texts_now v.items) old.now)
        (option_map (λ v. texts_now v.items) new.now))) }
{
    let id = first_of(alloc, old)?;
    let lost = lost_id(alloc, old, new)?;
    Ok((name.clone_in(alloc)?, TypeIds { id, lost }))
}

// The entity type of this name, among entity types in order.
fn find_entity<'a>(entities: &'a [EntityTypeEntry], name: &Name) -> Option<&'a EntityTypeEntry>
    requires { IsStrictlySortedBy (λ a b. names_in_order a.name b.name) (keys_of entities.now) }
    ensures { option_map raw_entity (option_copied result)
        ≡ find (λ e. same_name e.name (components_of name.now.name)) (map raw_entity entities.now) }
{
    let from = first_from(entities, name);
    seek(entities, from, name).1
}

// What is known of the ids of the type of this name, of which the schemas have these entity types.
fn row_between(
    alloc: Global,
    old: &[ActionEntry],
    new: &[ActionEntry],
    name: &Name,
    own: Option<&EntityTypeEntry>,
    found: Option<&EntityTypeEntry>,
) -> Result<(Name, TypeIds), AllocError>
    requires old_sorted { IsStrictlySortedBy uids_in_order (keys_of old.now) }
    requires new_sorted { IsStrictlySortedBy uids_in_order (keys_of new.now) }
    ensures { IfOk result (λ r. (r.0 ≡ name.now)
        × (r.1.id ≡ first_id (ids_found (option_map raw_entity (option_copied own.entry))
        (components_of name.now.name) (map raw_action old.now)))
        × (r.1.lost ≡ lost_id (ids_found (option_map raw_entity (option_copied own.entry))
        (components_of name.now.name) (map raw_action old.now))
        (ids_found (option_map raw_entity (option_copied found.entry)) (components_of name.now.name)
        (map raw_action new.now)))) }
{
    let old_ids = all_ids(alloc, own, ids_of_type(alloc, old, name)?)?;
    let new_ids = all_ids(alloc, found, ids_of_type(alloc, new, name)?)?;
    row_of(alloc, name, &old_ids, &new_ids)
}

// What is known of the ids of the type of this name.
fn told_row(
    alloc: Global,
    old: &Lent<'_>,
    new: &Lent<'_>,
    name: &Name,
) -> Result<(Name, TypeIds), AllocError>
    requires old_entities { IsStrictlySortedBy (λ a b. names_in_order a.name b.name) (keys_of old.now.entities.now) }
    requires new_entities { IsStrictlySortedBy (λ a b. names_in_order a.name b.name) (keys_of new.now.entities.now) }
    requires old_actions { IsStrictlySortedBy uids_in_order (keys_of old.now.actions.now) }
    requires new_actions { IsStrictlySortedBy uids_in_order (keys_of new.now.actions.now) }
    ensures { IfOk result (λ r. (r.0 ≡ name.now)
        × IsRow (raw_meaning old.now.entities.now old.now.actions.now)
        (raw_meaning new.now.entities.now new.now.actions.now) r) }
{
    let own = find_entity(old.entities, name);
    let found = find_entity(new.entities, name);
    row_between(alloc, old.actions, new.actions, name, own, found)
}

// What is known of the ids of the old entity types.
fn entity_rows(
    alloc: Global,
    old: &Lent<'_>,
    new: &Lent<'_>,
) -> Result<Vec<(Name, TypeIds)>, AllocError>
    requires old_entities { IsStrictlySortedBy (λ a b. names_in_order a.name b.name) (keys_of old.now.entities.now) }
    requires new_entities { IsStrictlySortedBy (λ a b. names_in_order a.name b.name) (keys_of new.now.entities.now) }
    requires old_actions { IsStrictlySortedBy uids_in_order (keys_of old.now.actions.now) }
    requires new_actions { IsStrictlySortedBy uids_in_order (keys_of new.now.actions.now) }
    ensures rows { IfOk result (λ rows. AllByRecursion (IsRow (raw_meaning old.now.entities.now old.now.actions.now)
        (raw_meaning new.now.entities.now new.now.actions.now)) rows.items) }
    ensures cover { IfOk result (λ rows. CoverEntities (row_names rows.items) (map raw_entity old.now.entities.now)) }
{
    let mut rows = Vec::new(alloc);
    for entry in old.entities {
        let row = told_row(alloc, old, new, &entry.name)?;
        rows.push(row)?;
    }
    Ok(rows)
}

// Whether the last of the rows has this name.
fn is_last(rows: &[(Name, TypeIds)], name: &Name) -> bool
    ensures { result ≡ true → list_any (same_name (components_of name.now.name)) (row_names rows.now) ≡ true }
{
    let many = rows.len();
    if many == 0 {
        return false;
    }
    same_name(name, &rows[many - 1].0)
}

// What is known of the ids of the old entity types, and of the types of the old actions.
fn type_rows(
    alloc: Global,
    old: &Lent<'_>,
    new: &Lent<'_>,
) -> Result<Vec<(Name, TypeIds)>, AllocError>
    requires old_entities { IsStrictlySortedBy (λ a b. names_in_order a.name b.name) (keys_of old.now.entities.now) }
    requires new_entities { IsStrictlySortedBy (λ a b. names_in_order a.name b.name) (keys_of new.now.entities.now) }
    requires old_actions { IsStrictlySortedBy uids_in_order (keys_of old.now.actions.now) }
    requires new_actions { IsStrictlySortedBy uids_in_order (keys_of new.now.actions.now) }
    ensures rows { IfOk result (λ rows. AllByRecursion (IsRow (raw_meaning old.now.entities.now old.now.actions.now)
        (raw_meaning new.now.entities.now new.now.actions.now)) rows.items) }
    ensures entities { IfOk result (λ rows. CoverEntities (row_names rows.items)
        (map raw_entity old.now.entities.now)) }
    ensures actions { IfOk result (λ rows. CoverTypes (row_names rows.items) (map raw_action old.now.actions.now)) }
{
    let mut rows = entity_rows(alloc, old, new)?;
    for action in old.actions {
        let ty = &action.uid.ty;
        if !is_last(rows.as_slice(), ty) {
            let row = told_row(alloc, old, new, ty)?;
            rows.push(row)?;
        }
    }
    Ok(rows)
}

/// An id of each type of the old schema, and one that the new schema has not.
pub fn told_ids(alloc: Global, old: &Lent<'_>, new: &Lent<'_>) -> Result<Ids, AllocError>
    requires old_entities { IsStrictlySortedBy (λ a b. names_in_order a.name b.name) (keys_of old.now.entities.now) }
    requires new_entities { IsStrictlySortedBy (λ a b. names_in_order a.name b.name) (keys_of new.now.entities.now) }
    requires old_actions { IsStrictlySortedBy uids_in_order (keys_of old.now.actions.now) }
    requires new_actions { IsStrictlySortedBy uids_in_order (keys_of new.now.actions.now) }
    ensures { IfOk result (λ ids. IsTold ids.rows (raw_meaning old.now.entities.now old.now.actions.now)
        (raw_meaning new.now.entities.now new.now.actions.now)) }
{
    let rows = type_rows(alloc, old, new)?;
    let rows = Map::from_entries(alloc, rows)?;
    Ok(Ids { rows })
}
