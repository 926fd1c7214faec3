ghost use Rattle.std.specs.Prelude.{map, IfOk, OnOk, IfErr};
ghost use Rattle.std.specs.List.{AllZip};
ghost use Rattle.schema_build_checks.specs.Rows.{Never, OrMemory};
ghost use Rattle.schema_build_scope.specs.FragmentScope.{fragment_scope};
ghost use Rattle.schema_build_scope.specs.Parts.{IsAllKnown};
ghost use Rattle.schema_build_hierarchy.specs.Declarations.{declared_entities, declared_actions};
ghost use Rattle.schema_build_hierarchy.specs.Entries.{AreEntities, AreActions, entity_of, action_of_entry};
ghost use Rattle.schema_build_items.specs.ActionKinds.{IsActionKindBuilt, tests_alone};
ghost use Rattle.schema_build_items.specs.Kinds.{IsKindBuilt};
ghost use Rattle.schema_build_parts.specs.BuildFaults.{TypeFault};

use schema_build_errors::Refusal;
use schema_build_hierarchy::{ActionEntry, EntityEntry};
use schema_build_items::{action_kinds, entity_kinds};
use schema_build_scope::{FragmentNames, expand_used_commons};
use schema_build_types::{ValidatorActionKind, ValidatorEntityTypeKind};
use std::alloc::Global;

// What each entity type and each action is built as. It refuses a fragment in which a common type reaches itself, and
// then one in which a shape or a context is no record.
pub(crate) fn build_types(
    alloc: Global,
    names: &FragmentNames<'_>,
    entities: &[EntityEntry<'_>],
    actions: &[ActionEntry<'_>],
) -> Result<(Vec<ValidatorEntityTypeKind>, Vec<ValidatorActionKind>), Refusal>
    requires known { IsAllKnown names.now.fragment names.now.table }
    requires entities { AreEntities (declared_entities names.now.fragment) entities.now }
    requires actions { AreActions (declared_actions names.now.fragment) actions.now }
    ensures kinds { IfOk result (λ built. AllZip (IsKindBuilt (fragment_scope names.now.fragment names.now.table))
        (map entity_of entities.now) built.0.items) }
    ensures applied { IfOk result (λ built. AllZip (IsActionKindBuilt (tests_alone names.now.fragment names.now.table)
        (fragment_scope names.now.fragment names.now.table)) (map action_of_entry actions.now) built.1.items) }
    ensures ok { OnOk result (Never (TypeFault names.now.fragment names.now.table)) }
    ensures err { IfErr result (OrMemory (TypeFault names.now.fragment names.now.table)) }
{
    let done = expand_used_commons(alloc, names)?;
    let kinds = entity_kinds(alloc, names, &done, entities)?;
    let applied = action_kinds(alloc, names, &done, actions)?;
    Ok((kinds, applied))
}
