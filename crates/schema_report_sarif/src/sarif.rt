//! A SARIF log of reports.
ghost use Rattle.std.specs.Prelude.{◌++◌, codes, OnOk};
ghost use Rattle.std.specs.List.{flat_map};
ghost use Rattle.serde_json.specs.Written.{compact_text};
ghost use Rattle.schema_json_quotes.specs.Adds.{Adds};
ghost use Rattle.schema_report_sarif.specs.Sarif.{found_value, results_value, later_result, driver_value, tool_value};
ghost use Rattle.schema_report_sarif.specs.Sarif.{run_value, runs_value, log_value};

use crate::results::push_result;
use schema_json_quotes::pushing::push;
use schema_json_quotes::quotes::push_quoted;
use schema_report::Report;
use std::alloc::{AllocError, Global};

/// A report on the text of a file.
#[derive(Clone, Copy)]
pub struct Found<'a> {
    /// The path of the file, with `/` between its parts.
    pub path: &'a str,
    /// What is reported of its text.
    pub report: &'a Report,
}

/// Adds one SARIF log of version 2.1.0 with these reports, in order, and the version of the program that found them.
/// Lines and columns count from 1, columns in characters. A report has its first place as its location, or the file
/// where it has none, and the other places as related locations. When out of memory, a front of the log may have been
/// added.
pub fn push_sarif(
    alloc: Global,
    out: &mut String,
    version: &str,
    found: &[Found<'_>],
) -> Result<(), AllocError>
    ensures { OnOk result (Adds out.old out.new (compact_text (log_value version.now found.now))) }
{
    push(
        out,
        "{\"$schema\":\"https://json.schemastore.org/sarif-2.1.0.json\",\"runs\":",
    )?;
    push_runs(alloc, out, version, found)?;
    push(out, ",\"version\":\"2.1.0\"}")
}

// Adds the list of the one run.
fn push_runs(
    alloc: Global,
    out: &mut String,
    version: &str,
    found: &[Found<'_>],
) -> Result<(), AllocError>
    ensures { OnOk result (Adds out.old out.new (compact_text (runs_value version.now found.now))) }
{
    push(out, "[")?;
    push_run(alloc, out, version, found)?;
    push(out, "]")
}

// Adds the run.
fn push_run(
    alloc: Global,
    out: &mut String,
    version: &str,
    found: &[Found<'_>],
) -> Result<(), AllocError>
    ensures { OnOk result (Adds out.old out.new (compact_text (run_value version.now found.now))) }
{
    push(out, "{\"columnKind\":\"unicodeCodePoints\",\"results\":")?;
    push_results(alloc, out, found)?;
    push(out, ",\"tool\":")?;
    push_tool(out, version)?;
    push(out, "}")
}

// Adds the program that found the reports.
fn push_tool(out: &mut String, version: &str) -> Result<(), AllocError>
    ensures { OnOk result (Adds out.old out.new (compact_text (tool_value version.now))) }
{
    push(out, "{\"driver\":")?;
    push_driver(out, version)?;
    push(out, "}")
}

// Adds the program's name and version.
fn push_driver(out: &mut String, version: &str) -> Result<(), AllocError>
    ensures { OnOk result (Adds out.old out.new (compact_text (driver_value version.now))) }
{
    push(out, "{\"name\":\"cedar-schema\",\"version\":")?;
    push_quoted(out, version)?;
    push(out, "}")
}

// Adds the list of the reports.
fn push_results(alloc: Global, out: &mut String, found: &[Found<'_>]) -> Result<(), AllocError>
    ensures { OnOk result (Adds out.old out.new (compact_text (results_value found.now))) }
{
    match found.split_first() {
        Some((first, others)) => push_some(alloc, out, first, others),
        None => push(out, "[]"),
    }
}

// Adds the list of these reports.
fn push_some(
    alloc: Global,
    out: &mut String,
    first: &Found<'_>,
    others: &[Found<'_>],
) -> Result<(), AllocError>
    ensures { OnOk result (Adds out.old out.new (codes "[" ++ (compact_text (found_value first.now)
        ++ (flat_map later_result others.now ++ codes "]")))) }
{
    push(out, "[")?;
    push_result(alloc, out, first.path, first.report)?;
    push_others(alloc, out, others)?;
    push(out, "]")
}

// Adds the reports behind others.
fn push_others(alloc: Global, out: &mut String, found: &[Found<'_>]) -> Result<(), AllocError>
    ensures { OnOk result (Adds out.old out.new (flat_map later_result found.now)) }
{
    for one in found {
        push(out, ",")?;
        push_result(alloc, out, one.path, one.report)?;
    }
    Ok(())
}
