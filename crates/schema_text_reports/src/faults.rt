ghost use Rattle.std.specs.Prelude.{◌≡◌, ◌≢◌, ◌++◌, [], ◌∷◌, None, map, OnOk};
ghost use Rattle.schema_report.specs.Reports.{reported};
ghost use Rattle.schema_text_reports.specs.FaultReports.{parse_reports, fault_reports};

use cedar_data::{Diagnostic, NonEmpty};
use cedar_schema_core::RecoverError;
use schema_convert_errors::CedarSchemaParseErrors;
use schema_report::{Lines, Report, report_of};
use std::alloc::{AllocError, Global};

// Adds the report of a fault.
fn push_report<D: Diagnostic>(
    alloc: Global,
    reports: &mut Vec<Report>,
    lines: &Lines<'_>,
    fault: &D,
) -> Result<(), AllocError>
    ensures { OnOk result (reports.new.items ≡ reports.old.items
        ++ map (reported D.severity D.text D.help D.labels None lines.now.text) (fault.now ∷ [])) }
{
    let report = report_of(alloc, None, fault, lines)?;
    reports.push(report)?;
    Ok(())
}

// Adds the report of each fault, in order.
fn push_reports<D: Diagnostic>(
    alloc: Global,
    reports: &mut Vec<Report>,
    lines: &Lines<'_>,
    faults: &NonEmpty<D>,
) -> Result<(), AllocError>
    ensures { OnOk result (reports.new.items ≡ reports.old.items
        ++ map (reported D.severity D.text D.help D.labels None lines.now.text) faults.now) }
{
    for fault in faults.iter() {
        push_report(alloc, reports, lines, fault)?;
    }
    Ok(())
}

// Adds the reports of all faults of a text that is no fragment.
fn push_parse_reports(
    alloc: Global,
    reports: &mut Vec<Report>,
    lines: &Lines<'_>,
    errors: &CedarSchemaParseErrors,
) -> Result<(), AllocError>
    ensures { OnOk result (reports.new.items ≡ reports.old.items ++ parse_reports lines.now.text errors.now) }
{
    match errors {
        CedarSchemaParseErrors::SyntaxError(errors) => {
            push_reports(alloc, reports, lines, &errors.errors)
        }
        CedarSchemaParseErrors::JsonError(errors) => {
            push_reports(alloc, reports, lines, &errors.errors)
        }
        CedarSchemaParseErrors::Memory => Err(AllocError),
    }
}

/// Adds the report of each fault of a text from which nothing is recovered, in order. It errs when out of memory, also
/// where that is the fault.
pub fn push_fault_reports(
    alloc: Global,
    reports: &mut Vec<Report>,
    lines: &Lines<'_>,
    fault: &RecoverError,
) -> Result<(), AllocError>
    ensures added { OnOk result (reports.new.items ≡ reports.old.items ++ fault_reports lines.now.text fault.now) }
    ensures told { OnOk result (fault.now ≢ RecoverError.Memory) }
{
    match fault {
        RecoverError::Parse(errors) => push_parse_reports(alloc, reports, lines, errors),
        RecoverError::Schema(error) => push_report(alloc, reports, lines, error),
        RecoverError::Captured(captured) => push_report(alloc, reports, lines, captured),
        RecoverError::Memory => Err(AllocError),
    }
}
