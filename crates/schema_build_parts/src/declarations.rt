ghost use Rattle.std.specs.Prelude.{OnOk, IfErr};
ghost use Rattle.schema_build_checks.specs.Rows.{Never, OrMemory};
ghost use Rattle.schema_build_parts.specs.DeclarationFaults.{DeclarationFault};

use cedar_identifiers::RawName;
use cedar_names::ExtensionTable;
use schema_build_checks::{
    check_action_shadowing, check_action_types, check_extension_types, check_features,
    check_type_shadowing, has_fitting_parts,
};
use schema_build_errors::Refusal;
use schema_json::Fragment;
use schema_resolve_lookup::DeclaredDefs;
use std::alloc::Global;

/// Refuses a fragment by what no declaration may be beside others, and then by what no schema has: by the first that
/// holds of a type of actions that is declared, a type that hides another, an action that hides another, an extension
/// type that is not in the table, and a feature that is not supported.
pub fn check_declarations(
    alloc: Global,
    fragment: &Fragment<RawName>,
    table: &ExtensionTable,
) -> Result<(), Refusal>
    ensures ok { OnOk result (Never (DeclarationFault fragment.now table.now)) }
    ensures err { IfErr result (OrMemory (DeclarationFault fragment.now table.now)) }
{
    check_action_types(alloc, fragment)?;
    let declared = DeclaredDefs::new(fragment);
    check_type_shadowing(alloc, fragment, &declared)?;
    check_action_shadowing(alloc, fragment, &declared)?;
    if has_fitting_parts(fragment, table) {
        return Ok(());
    }
    check_extension_types(alloc, fragment, table)?;
    check_features(alloc, fragment)
}
