//! Laws of the hierarchies. Each law is what its function ensures; the functions do nothing.
ghost use Rattle.std.specs.Prelude.{◌≡◌, ℕ, List, map};
ghost use Rattle.std.specs.declared.cmp.Ordering.{Ordering};
ghost use Rattle.std.specs.Cmp.{IsTotalOrder};
ghost use Rattle.std.specs.List.Sorted.{IsStrictlySortedBy};
ghost use Rattle.cedar_identifiers.specs.declared.raw_name.RawName.{RawName as Raw};
ghost use Rattle.cedar_names.specs.declared.extension_table.ExtensionTable.{ExtensionTable as TableTold};
ghost use Rattle.schema_json.specs.declared.action_type.ActionType.{ActionType as ActionTold};
ghost use Rattle.schema_resolve_definitions.specs.Defined.{defined};
ghost use Rattle.schema_resolve_definitions.specs.Tests.{Tests, tests_of};
ghost use Rattle.schema_build_checks.specs.DeclaredAt.{ActionAt};
ghost use Rattle.schema_build_hierarchy.specs.Ancestors.{AreParentsDeclared, IsAncestorRow};
ghost use Rattle.schema_build_hierarchy.specs.Declarations.{Declared, DeclaredEntity, entity_name, action_key};
ghost use Rattle.schema_build_hierarchy.specs.Declarations.{declared_actions};
ghost use Rattle.schema_build_hierarchy.specs.Entries.{SameMembers, AreEntities, AreActions, entity_of};
ghost use Rattle.schema_build_hierarchy.specs.Entries.{action_of_entry};
ghost use Rattle.schema_build_hierarchy.specs.Parents.{action_parents, IsAncestor, IsActionAncestor};

use crate::entries::{ActionEntry, EntityEntry};
use cedar_identifiers::{NameText, RawName};
use schema_json::Fragment;
use schema_resolve_lookup::FragmentDefs;

/// Every parent of an action is declared, since a reference to an action means only what is declared.
pub fn action_parents_are_declared(fragment: &Fragment<RawName>, defs: &FragmentDefs<'_>)
    ghost table: { TableTold }
    requires { tests_of defs.now ≡ tests_of (defined fragment.now table) }
    ensures { AreParentsDeclared action_key (action_parents (tests_of defs.now)) (declared_actions fragment.now) }
{}

/// A list that strictly rises by a total order is known by its members.
pub fn rising_lists_are_known_by_members<T>()
    ensures { (order : T → T → Ordering) → IsTotalOrder order → (xs ys : List T) → IsStrictlySortedBy order xs
        → IsStrictlySortedBy order ys → SameMembers xs ys → xs ≡ ys }
{}

/// The ancestors of an entity type have at most one row.
pub fn entity_rows_are_one<'f>(entries: &[EntityEntry<'f>])
    ghost g: { Tests × List DeclaredEntity }
    requires { AreEntities g.1 entries.now }
    ensures { (a : List (List ℕ)) (row other : List ℕ)
        → IsAncestorRow (IsAncestor g.0 g.1) (map (λ e. entity_name (entity_of e)) entries.now) a row
        → IsAncestorRow (IsAncestor g.0 g.1) (map (λ e. entity_name (entity_of e)) entries.now) a other → row ≡ other }
{}

/// The ancestors of an action have at most one row.
pub fn action_rows_are_one<'f>(entries: &[ActionEntry<'f>])
    ghost g: { Tests × List (Declared ActionAt (ActionTold Raw ⟦<RawName as NameText>⟧)) }
    requires { AreActions g.1 entries.now }
    ensures { (a : List (List ℕ) × List ℕ) (row other : List ℕ)
        → IsAncestorRow (IsActionAncestor g.0 g.1) (map (λ e. action_key (action_of_entry e)) entries.now) a row
        → IsAncestorRow (IsActionAncestor g.0 g.1) (map (λ e. action_key (action_of_entry e)) entries.now) a other
        → row ≡ other }
{}
