ghost use Rattle.std.specs.Prelude.{map, All, List, IfOk, OnOk, IfErr};
ghost use Rattle.schema_resolve_definitions.specs.Tests.{Tests, tests_of};
ghost use Rattle.schema_build_checks.specs.DeclaredAt.{ActionAt, at_of};
ghost use Rattle.schema_build_checks.specs.Rows.{Never, OrMemory};
ghost use Rattle.schema_build_hierarchy.specs.Declarations.{Declared, DeclaredEntity, entity_name, action_key};
ghost use Rattle.schema_build_hierarchy.specs.Ancestors.{AreParentRows, AreParentsDeclared, AreAncestorRows};
ghost use Rattle.schema_build_hierarchy.specs.Entries.{AreEntities, AreActions, entity_of, action_of_entry};
ghost use Rattle.schema_build_hierarchy.specs.Parents.{entity_parents, action_parents, AreParentsMeant, IsAncestor};
ghost use Rattle.schema_build_hierarchy.specs.Parents.{IsActionAncestor};
ghost use Rattle.schema_build_hierarchy.specs.Rows.{HasActionCycle, IsCycleOf};
ghost use Rattle.schema_json.specs.declared.action_type.ActionType.{ActionType as ActionTold};
ghost use Rattle.cedar_identifiers.specs.declared.raw_name.RawName.{RawName as Raw};

use crate::entries::{ActionEntry, EntityEntry};
use crate::parents::{action_parents, entity_parents};
use crate::ranks::ranks_of;
use cedar_data::CloneIn;
use cedar_identifiers::{NameText, RawName};
use cedar_names::EntityUID;
use schema_build_errors::{CycleInActionHierarchyError, Refusal, SchemaError};
use schema_build_graph::{closure, least_cyclic};
use schema_resolve_lookup::{FragmentDefs, Recent};
use std::alloc::{AllocError, Global};

/// For each declared entity type the ranks of its ancestors, rising. Each parent means an entity type, and is declared.
pub fn entity_ancestors<'f>(
    alloc: Global,
    entries: &[EntityEntry<'f>],
    defs: &FragmentDefs<'_>,
) -> Result<Vec<Vec<usize>>, AllocError>
    ghost ds: { List DeclaredEntity }
    requires entries { AreEntities ds entries.now }
    requires declared { AreParentsDeclared entity_name (entity_parents (tests_of defs.now)) ds }
    requires meant { All (AreParentsMeant (tests_of defs.now)) ds }
    ensures { IfOk result (λ rows. AreAncestorRows (IsAncestor (tests_of defs.now) ds)
        (map (λ e. entity_name (entity_of e)) entries.now) rows.items) }
{
    let rows = entity_parent_rows(alloc, entries, defs)?;
    closure(alloc, &rows)
}

// For each declared entity type the ranks of its parents.
fn entity_parent_rows<'f>(
    alloc: Global,
    entries: &[EntityEntry<'f>],
    defs: &FragmentDefs<'_>,
) -> Result<Vec<Vec<usize>>, AllocError>
    ghost ds: { List DeclaredEntity }
    requires entries { AreEntities ds entries.now }
    requires meant { All (AreParentsMeant (tests_of defs.now)) ds }
    ensures { IfOk result (λ rows. AreParentRows entity_name (entity_parents (tests_of defs.now))
        (map entity_of entries.now) rows.items) }
{
    let recent = Recent::new();
    let mut rows = Vec::with_capacity(alloc, entries.len())?;
    for entry in entries {
        let names = entity_parents(alloc, defs, entry)?;
        rows.push(ranks_of(alloc, entries, &recent, &names)?)?;
    }
    Ok(rows)
}

/// For each declared action the ranks of its ancestors, rising. Each parent is declared.
pub fn action_ancestors<'f>(
    alloc: Global,
    entries: &[ActionEntry<'f>],
    defs: &FragmentDefs<'_>,
) -> Result<Vec<Vec<usize>>, AllocError>
    ghost ds: { List (Declared ActionAt (ActionTold Raw ⟦<RawName as NameText>⟧)) }
    requires entries { AreActions ds entries.now }
    requires declared { AreParentsDeclared action_key (action_parents (tests_of defs.now)) ds }
    ensures { IfOk result (λ rows. AreAncestorRows (IsActionAncestor (tests_of defs.now) ds)
        (map (λ e. action_key (action_of_entry e)) entries.now) rows.items) }
{
    let rows = action_parent_rows(alloc, entries, defs)?;
    closure(alloc, &rows)
}

// For each declared action the ranks of its parents.
fn action_parent_rows<'f>(
    alloc: Global,
    entries: &[ActionEntry<'f>],
    defs: &FragmentDefs<'_>,
) -> Result<Vec<Vec<usize>>, AllocError>
    ghost ds: { List (Declared ActionAt (ActionTold Raw ⟦<RawName as NameText>⟧)) }
    requires { AreActions ds entries.now }
    ensures { IfOk result (λ rows. AreParentRows action_key (action_parents (tests_of defs.now))
        (map action_of_entry entries.now) rows.items) }
{
    let recent = Recent::new();
    let mut rows = Vec::with_capacity(alloc, entries.len())?;
    for entry in entries {
        let names = action_parents(alloc, defs, entry)?;
        rows.push(ranks_of(alloc, entries, &recent, &names)?)?;
    }
    Ok(rows)
}

/// Refuses actions of which one is its own ancestor, and names the least. The rows are the ancestors of each.
pub fn check_action_cycle<'f>(
    alloc: Global,
    entries: &[ActionEntry<'f>],
    ancestors: &[Vec<usize>],
) -> Result<(), Refusal>
    ghost g: { Tests × List (Declared ActionAt (ActionTold Raw ⟦<RawName as NameText>⟧)) }
    requires entries { AreActions g.1 entries.now }
    requires ancestors { AreAncestorRows (IsActionAncestor g.0 g.1)
        (map (λ e. action_key (action_of_entry e)) entries.now) ancestors.now }
    ensures ok { OnOk result (Never (HasActionCycle g.0 g.1)) }
    ensures err { IfErr result (OrMemory (HasActionCycle g.0 g.1)) }
{
    match least_cyclic(ancestors) {
        Some(rank) => Err(cycle_at(alloc, &entries[rank].name)?),
        None => Ok(()),
    }
}

// The error that names this action.
fn cycle_at(alloc: Global, uid: &EntityUID) -> Result<Refusal, AllocError>
    ensures { IfOk result (IsCycleOf (at_of uid.now)) }
{
    let uid = uid.clone_in(alloc)?;
    let error = CycleInActionHierarchyError { uid };
    Refusal::new(alloc, SchemaError::CycleInActionHierarchy(error))
}
