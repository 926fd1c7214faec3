ghost use Rattle.std.specs.Prelude.{◌≡◌, List, map, All, IfOk, OnOk, IfErr};
ghost use Rattle.cedar_identifiers.specs.declared.raw_name.RawName.{RawName as Raw};
ghost use Rattle.schema_json.specs.declared.action_type.ActionType.{ActionType as ActionTold};
ghost use Rattle.schema_resolve_definitions.specs.Tests.{Tests, tests_of};
ghost use Rattle.schema_build_checks.specs.DeclaredAt.{ActionAt};
ghost use Rattle.schema_build_checks.specs.Rows.{Never, OrMemory};
ghost use Rattle.schema_build_hierarchy.specs.Ancestors.{AreParentsDeclared, AreAncestorRows};
ghost use Rattle.schema_build_hierarchy.specs.Declarations.{Declared, DeclaredEntity, entity_name, action_key};
ghost use Rattle.schema_build_hierarchy.specs.Entries.{AreEntities, AreActions, entity_of, action_of_entry};
ghost use Rattle.schema_build_hierarchy.specs.Parents.{entity_parents, action_parents, AreParentsMeant, IsAncestor};
ghost use Rattle.schema_build_hierarchy.specs.Parents.{IsActionAncestor};
ghost use Rattle.schema_build_parts.specs.BuildFaults.{HierarchyFault};

use cedar_identifiers::{NameText, RawName};
use schema_build_errors::Refusal;
use schema_build_hierarchy::{
    ActionEntry, EntityEntry, action_ancestors, check_action_cycle, check_external_types,
    entity_ancestors,
};
use schema_resolve_lookup::FragmentDefs;
use std::alloc::Global;

// The ranks of the ancestors of each entity type and of each action. It refuses actions of which one stands above
// itself, and then entity types of which an external one stands below an enumerated one.
pub(crate) fn build_hierarchies(
    alloc: Global,
    entities: &[EntityEntry<'_>],
    actions: &[ActionEntry<'_>],
    defs: &FragmentDefs<'_>,
) -> Result<(Vec<Vec<usize>>, Vec<Vec<usize>>), Refusal>
    ghost g: { Tests × (List DeclaredEntity × List (Declared ActionAt (ActionTold Raw ⟦<RawName as NameText>⟧))) }
    requires tests { g.0 ≡ tests_of defs.now }
    requires entities { AreEntities g.1.0 entities.now }
    requires actions { AreActions g.1.1 actions.now }
    requires parents { AreParentsDeclared entity_name (entity_parents (tests_of defs.now)) g.1.0 }
    requires uids { AreParentsDeclared action_key (action_parents (tests_of defs.now)) g.1.1 }
    requires meant { All (AreParentsMeant (tests_of defs.now)) g.1.0 }
    ensures above { IfOk result (λ rows. AreAncestorRows (IsAncestor g.0 g.1.0)
        (map (λ e. entity_name (entity_of e)) entities.now) rows.0.items) }
    ensures above_actions { IfOk result (λ rows. AreAncestorRows (IsActionAncestor g.0 g.1.1)
        (map (λ e. action_key (action_of_entry e)) actions.now) rows.1.items) }
    ensures ok { OnOk result (Never (HierarchyFault g.0 g.1.0 g.1.1)) }
    ensures err { IfErr result (OrMemory (HierarchyFault g.0 g.1.0 g.1.1)) }
{
    let above_actions = action_ancestors(alloc, actions, defs)?;
    check_action_cycle(alloc, actions, &above_actions)?;
    let above = entity_ancestors(alloc, entities, defs)?;
    check_external_types(alloc, entities, &above)?;
    Ok((above, above_actions))
}
