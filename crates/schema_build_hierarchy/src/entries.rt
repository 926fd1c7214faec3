ghost use Rattle.std.specs.Prelude.{◌≡◌, ◌++◌, true, map, All, Contains, IfOk, OnOk};
ghost use Rattle.std.specs.List.Sorted.{IsStrictlySortedBy};
ghost use Rattle.schema_build_checks.specs.DeclaredAt.{declared_at};
ghost use Rattle.schema_build_hierarchy.specs.Declarations.{entity_in, action_in, declared_entities, declared_actions};
ghost use Rattle.schema_build_hierarchy.specs.FirstUses.{HasAlike};
ghost use Rattle.schema_build_hierarchy.specs.Entries.{entity_of, action_of_entry, AreEntities, AreActions};

use cedar_data::{CloneIn, List, Loc, Text};
use cedar_identifiers::{Eid, Id, InternalName, Name, RawName, UnreservedId};
use cedar_names::EntityUID;
use schema_json::{ActionType, EntityType, Fragment};
use schema_resolve_definitions::declared::{action_type, name_of};
use std::alloc::{AllocError, Global};
use std::cmp::Ordering;

/// A declaration of a fragment, with a name that is made. It is ordered by that name.
#[derive(Drop)]
#[derive_where(PartialEq, Eq, PartialOrd, Ord; K)]
pub struct Entry<'f, K, T> {
    /// The full name, at the place of the declaration.
    pub name: K,
    /// The namespace that it stands in.
    #[derive_where(skip(EqHashOrd))]
    pub ns: &'f Option<Name>,
    /// What is declared.
    #[derive_where(skip(EqHashOrd))]
    pub ty: &'f T,
}

/// A declared entity type.
pub type EntityEntry<'f> = Entry<'f, Name, EntityType<RawName>>;

/// A declared action.
pub type ActionEntry<'f> = Entry<'f, EntityUID, ActionType<RawName>>;

/// The entity types that the fragment declares, in the order of their names.
pub fn entities_in_order<'f>(
    alloc: Global,
    fragment: &'f Fragment<RawName>,
) -> Result<Vec<EntityEntry<'f>>, AllocError>
    ensures { IfOk result (λ entries. AreEntities (declared_entities fragment.now) entries.items) }
{
    let mut entries = Vec::new(alloc);
    for (ns, definition) in fragment.0.as_slice() {
        push_entities(alloc, &mut entries, ns, definition.entity_types.as_slice())?;
    }
    Ok(in_order(entries))
}

/// The actions that the fragment declares, in the order of their types and then of their ids.
pub fn actions_in_order<'f>(
    alloc: Global,
    fragment: &'f Fragment<RawName>,
) -> Result<Vec<ActionEntry<'f>>, AllocError>
    ensures { IfOk result (λ entries. AreActions (declared_actions fragment.now) entries.items) }
{
    let mut entries = Vec::new(alloc);
    for (ns, definition) in fragment.0.as_slice() {
        push_actions(alloc, &mut entries, ns, definition.actions.as_slice())?;
    }
    Ok(in_order(entries))
}

// Adds the entity types of a namespace.
fn push_entities<'f>(
    alloc: Global,
    entries: &mut Vec<EntityEntry<'f>>,
    ns: &'f Option<Name>,
    entities: &'f [(UnreservedId, EntityType<RawName>)],
) -> Result<(), AllocError>
    ensures { OnOk result (map entity_of entries.new.items ≡ map entity_of entries.old.items
        ++ map (entity_in ns.now) entities.now) }
{
    for (id, ty) in entities {
        let name = full_name(alloc, ns, id, ty.loc)?;
        entries.push(Entry { name, ns, ty })?;
    }
    Ok(())
}

// Adds the actions of a namespace.
fn push_actions<'f>(
    alloc: Global,
    entries: &mut Vec<ActionEntry<'f>>,
    ns: &'f Option<Name>,
    actions: &'f [(Text, ActionType<RawName>)],
) -> Result<(), AllocError>
    ensures { OnOk result (map action_of_entry entries.new.items ≡ map action_of_entry entries.old.items
        ++ map (action_in ns.now) actions.now) }
{
    for (id, action) in actions {
        let ty = action_type(alloc, ns)?;
        let eid = Eid(id.clone_in(alloc)?);
        let loc = action.loc;
        let name = EntityUID { ty, eid, loc };
        entries.push(Entry {
            name,
            ns,
            ty: action,
        })?;
    }
    Ok(())
}

// The full name of an entity type that is declared in a namespace, at the place of its declaration.
fn full_name(
    alloc: Global,
    ns: &Option<Name>,
    id: &UnreservedId,
    loc: Option<Loc>,
) -> Result<Name, AllocError>
    ensures { IfOk result (λ name. name.name ≡ declared_at ns.now id.now.id loc) }
{
    let word = InternalName {
        first: id.id.clone_in(alloc)?,
        others: List::new(alloc),
        loc,
    };
    let name = word.qualify_with(alloc, name_of(ns))?;
    Ok(Name { name })
}

// The entries in the order of their names, each name once.
fn in_order<'f, K: Ord + Drop, T>(mut entries: Vec<Entry<'f, K, T>>) -> Vec<Entry<'f, K, T>>
    ensures sorted { IsStrictlySortedBy K.cmp (map (λ e. e.name) result.items) }
    ensures kept { All (Contains entries.entry.items) result.items }
    ensures whole { All (λ e. HasAlike K.cmp (map (λ e. e.name) result.items) e.name) entries.entry.items }
{
    if names_rise(&entries) {
        return entries;
    }
    entries.sort_unstable();
    entries.dedup();
    entries
}

// Whether each name is less than the next.
fn names_rise<'f, K: Ord, T>(entries: &Vec<Entry<'f, K, T>>) -> bool
    ensures { result ≡ true → IsStrictlySortedBy K.cmp (map (λ e. e.name) entries.now.items) }
{
    for next in 1..entries.len() {
        match entries[next - 1].name.cmp(&entries[next].name) {
            Ordering::Less => {}
            _ => return false,
        }
    }
    true
}
