//! The reports of a text as the reply of a program: lines of JSON.
ghost use Rattle.std.specs.Prelude.{◌≡◌, IfOk};
ghost use Rattle.std.specs.String.{string_bytes};
ghost use Rattle.cedar_runs.specs.Reports.{report_of};
ghost use Rattle.schema_text_reports.specs.ReportReplies.{json_lines, reports_status, reports_report};
ghost use Rattle.schema_text_reports.specs.ReportReplies.{IsReportsReport, IsReportsPlan};

use crate::reports::text_reports;
use cedar_data::{Severity, Text};
use cedar_io::MAX_INPUT;
use cedar_names::ExtensionTable;
use cedar_runs::{Reply, Status};
use schema_report::{Lines, Report, push_json};
use std::alloc::{AllocError, Global};

// The path of a text that is no file.
const NO_PATH: &str = "-";

// The status of a run that hands out the reports.
fn status_of(reports: &[Report]) -> Status
    ensures { result ≡ reports_status reports.now }
{
    for report in reports {
        if report.severity == Severity::Error {
            return Status::Refused;
        }
    }
    Status::Done
}

// The reports as JSON, one a line.
fn json_of(alloc: Global, reports: &[Report]) -> Result<String, AllocError>
    ensures { IfOk result (λ out. string_bytes out ≡ json_lines reports.now) }
{
    let mut out = String::new(alloc);
    for report in reports {
        push_json(&mut out, NO_PATH, report)?;
    }
    Ok(out)
}

// The reply that hands out the reports.
fn reply_with(alloc: Global, reports: &[Report]) -> Result<Reply, AllocError>
    ensures { IfOk result (λ reply. report_of reply ≡ reports_report reports.now) }
{
    let out = json_of(alloc, reports)?;
    Ok(Reply {
        status: status_of(reports),
        out: Text::from_string(out),
        err: Text::new(alloc),
    })
}

/// What is reported of a schema text, as lines of JSON: refused where one is of a fault. It errs when out of memory.
pub fn reports_reply(alloc: Global, text: &str, table: &ExtensionTable) -> Result<Reply, AllocError>
    ensures { IfOk result (λ reply. IsReportsReport table.now text.now (report_of reply)) }
{
    let lines = Lines::of(alloc, text)?;
    let reports = text_reports(alloc, &lines, table)?;
    reply_with(alloc, &reports)
}

/// What is reported of an input, with all extension types that Cedar has. It errs when out of memory.
pub fn reply_of_reports(alloc: Global, bytes: &[u8]) -> Result<Reply, AllocError>
    ensures { IfOk result (λ reply. IsReportsPlan bytes.now (report_of reply)) }
{
    let table = ExtensionTable::all_available(alloc)?;
    if bytes.len() > MAX_INPUT {
        return Reply::too_long(alloc);
    }
    match str::from_utf8(bytes) {
        Ok(text) => reports_reply(alloc, text, &table),
        Err(_) => Reply::not_text(alloc),
    }
}
