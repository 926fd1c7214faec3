ghost use Rattle.std.specs.Prelude.{◌≡◌, ◌≢◌, ◌++◌, IfOk, OnOk};
ghost use Rattle.schema_text_reports.specs.FaultReports.{fault_reports, warning_reports};
ghost use Rattle.schema_text_reports.specs.TextReports.{AreTextReports};

use crate::faults::push_fault_reports;
use cedar_names::ExtensionTable;
use cedar_schema_core::{RecoverError, recover_schema};
use schema_convert::SchemaWarning;
use schema_report::{Lines, Report, report_of};
use std::alloc::{AllocError, Global};

// Adds the report of each warning, in order.
fn push_warnings(
    alloc: Global,
    reports: &mut Vec<Report>,
    lines: &Lines<'_>,
    warnings: &[SchemaWarning],
) -> Result<(), AllocError>
    ensures { OnOk result (reports.new.items ≡ reports.old.items ++ warning_reports lines.now.text warnings.now) }
{
    for warning in warnings {
        let report = report_of(alloc, None, warning, lines)?;
        reports.push(report)?;
    }
    Ok(())
}

// The reports of the warnings, in order.
fn warnings_of(
    alloc: Global,
    lines: &Lines<'_>,
    warnings: &[SchemaWarning],
) -> Result<Vec<Report>, AllocError>
    ensures { IfOk result (λ reports. reports.items ≡ warning_reports lines.now.text warnings.now) }
{
    let mut reports = Vec::new(alloc);
    push_warnings(alloc, &mut reports, lines, warnings)?;
    Ok(reports)
}

// The reports of the faults, in order.
fn faults_of(
    alloc: Global,
    lines: &Lines<'_>,
    fault: &RecoverError,
) -> Result<Vec<Report>, AllocError>
    ensures { IfOk result (λ reports. (fault.now ≢ RecoverError.Memory)
        × (reports.items ≡ fault_reports lines.now.text fault.now)) }
{
    let mut reports = Vec::new(alloc);
    push_fault_reports(alloc, &mut reports, lines, fault)?;
    Ok(reports)
}

/// What is reported of a schema text, in order: its warnings where something is recovered from it, or else its faults.
/// It errs when out of memory.
pub fn text_reports(
    alloc: Global,
    lines: &Lines<'_>,
    table: &ExtensionTable,
) -> Result<Vec<Report>, AllocError>
    ensures { IfOk result (λ reports. AreTextReports lines.now.text table.now reports.items) }
{
    match recover_schema(alloc, lines.text(), table) {
        Ok(recovered) => warnings_of(alloc, lines, &recovered.warnings),
        Err(fault) => faults_of(alloc, lines, &fault),
    }
}
