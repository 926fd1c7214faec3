ghost use Rattle.std.specs.Prelude.{IfOk, OnOk, IfErr};
ghost use Rattle.schema_build_checks.specs.Rows.{Never, OrMemory};
ghost use Rattle.schema_build_parts.specs.BuildFaults.{BuildFault};
ghost use Rattle.schema_build_parts.specs.Parts.{ArePartsOf};

use crate::declarations::check_declarations;
use crate::meanings::build_meanings;
use cedar_identifiers::RawName;
use cedar_names::ExtensionTable;
use schema_build_errors::Refusal;
use schema_build_hierarchy::{ActionEntry, EntityEntry};
use schema_build_scope::{FragmentNames, check_references};
use schema_build_types::{ValidatorActionKind, ValidatorEntityTypeKind};
use schema_json::Fragment;
use std::alloc::Global;

/// What is built of the declarations of a fragment: these in the order of their names, what each is built as, and the
/// ancestors of each by their ranks in that order.
#[derive(Drop)]
pub struct FragmentParts<'f> {
    /// The declared entity types.
    pub entities: Vec<EntityEntry<'f>>,
    /// The declared actions.
    pub actions: Vec<ActionEntry<'f>>,
    /// What each entity type is built as.
    pub kinds: Vec<ValidatorEntityTypeKind>,
    /// What each action is built as.
    pub applied: Vec<ValidatorActionKind>,
    /// For each entity type the ranks of its ancestors, rising.
    pub above: Vec<Vec<usize>>,
    /// For each action the ranks of its ancestors, rising.
    pub above_actions: Vec<Vec<usize>>,
}

/// Builds what a fragment declares under the table. It refuses a fragment that is no schema, by the first fault that it
/// has in the order of `SchemaError`: a fault of its declarations, references that mean nothing, or a fault of what
/// these mean.
pub fn fragment_parts<'f>(
    alloc: Global,
    fragment: &'f Fragment<RawName>,
    table: &ExtensionTable,
) -> Result<FragmentParts<'f>, Refusal>
    ensures ok { OnOk result (Never (BuildFault fragment.now table.now)) }
    ensures parts { IfOk result (ArePartsOf fragment.now table.now) }
    ensures err { IfErr result (OrMemory (BuildFault fragment.now table.now)) }
{
    check_declarations(alloc, fragment, table)?;
    let names = FragmentNames::new(alloc, fragment, table)?;
    check_references(alloc, &names)?;
    build_meanings(alloc, fragment, &names)
}
