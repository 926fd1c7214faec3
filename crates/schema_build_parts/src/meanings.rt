ghost use Rattle.std.specs.Prelude.{◌≡◌, List, IfOk, OnOk, IfErr};
ghost use Rattle.cedar_identifiers.specs.declared.raw_name.RawName.{RawName as Raw};
ghost use Rattle.cedar_names.specs.declared.extension_table.ExtensionTable.{ExtensionTable as TableTold};
ghost use Rattle.schema_json.specs.declared.action_type.ActionType.{ActionType as ActionTold};
ghost use Rattle.schema_resolve_definitions.specs.Defined.{defined};
ghost use Rattle.schema_resolve_definitions.specs.Tests.{Tests, tests_of};
ghost use Rattle.schema_build_checks.specs.DeclaredAt.{ActionAt};
ghost use Rattle.schema_build_checks.specs.Rows.{Never, OrMemory};
ghost use Rattle.schema_build_scope.specs.Parts.{IsAllKnown};
ghost use Rattle.schema_build_hierarchy.specs.Declarations.{Declared, DeclaredEntity, declared_entities};
ghost use Rattle.schema_build_hierarchy.specs.Declarations.{declared_actions};
ghost use Rattle.schema_build_parts.specs.BuildFaults.{MeaningFault};
ghost use Rattle.schema_build_parts.specs.Parts.{ArePartsOf};

use crate::hierarchies::build_hierarchies;
use crate::parts::FragmentParts;
use crate::types::build_types;
use cedar_identifiers::{NameText, RawName};
use schema_build_errors::Refusal;
use schema_build_hierarchy::laws::action_parents_are_declared;
use schema_build_hierarchy::{actions_in_order, check_declared_types, entities_in_order};
use schema_build_scope::FragmentNames;
use schema_json::Fragment;
use std::alloc::Global;

// Builds what a fragment declares, of which each reference means something. It refuses entity types that are wanted and
// not declared, then a fault of a type, and then one of a hierarchy.
pub(crate) fn build_meanings<'f>(
    alloc: Global,
    fragment: &'f Fragment<RawName>,
    names: &FragmentNames<'_>,
) -> Result<FragmentParts<'f>, Refusal>
    ghost g: { TableTold × (Tests × (List DeclaredEntity
        × List (Declared ActionAt (ActionTold Raw ⟦<RawName as NameText>⟧)))) }
    requires same { fragment.now ≡ names.now.fragment }
    requires table { g.0 ≡ names.now.table }
    requires tests { g.1.0 ≡ tests_of (defined names.now.fragment names.now.table) }
    requires entities { g.1.1.0 ≡ declared_entities names.now.fragment }
    requires actions { g.1.1.1 ≡ declared_actions names.now.fragment }
    requires known { IsAllKnown names.now.fragment names.now.table }
    ensures ok { OnOk result (Never (MeaningFault names.now.fragment names.now.table)) }
    ensures parts { IfOk result (ArePartsOf names.now.fragment names.now.table) }
    ensures err { IfErr result (OrMemory (MeaningFault names.now.fragment names.now.table)) }
{
    let defs = names.defs();
    check_declared_types(alloc, fragment, defs)?;
    action_parents_are_declared(fragment, defs);
    let entities = entities_in_order(alloc, fragment)?;
    let actions = actions_in_order(alloc, fragment)?;
    let (kinds, applied) = build_types(alloc, names, &entities, &actions)?;
    let (above, above_actions) = build_hierarchies(alloc, &entities, &actions, defs)?;
    Ok(FragmentParts {
        entities,
        actions,
        kinds,
        applied,
        above,
        above_actions,
    })
}
