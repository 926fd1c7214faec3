//! Reports as workflow commands of GitHub.
ghost use Rattle.std.specs.Prelude.{◌≡◌, ◌++◌, OnOk};
ghost use Rattle.std.specs.Str.{chars};
ghost use Rattle.schema_report.specs.GitHub.{range_properties, region_properties, title_property, help_words};
ghost use Rattle.schema_report.specs.GitHub.{github_line};

use crate::escape::{Escape, push_escaped, push_text};
use crate::place::Place;
use crate::pushing::{push, push_from_one};
use crate::report::{Report, ReportPlace};
use crate::short::push_severity;
use cedar_data::Text;
use std::alloc::AllocError;

/// Adds the report as a line `::error file=path,line=1,col=2,endLine=1,endColumn=5::message`, with the first of its
/// places. Its advice follows the message in a line of its own.
pub fn push_github(out: &mut Text, path: &str, report: &Report) -> Result<(), AllocError>
    ensures { OnOk result (out.new ≡ out.old ++ github_line (chars path.now) report.now) }
{
    push(out, "::")?;
    push_severity(out, report.severity)?;
    push(out, " file=")?;
    push_escaped(out, Escape::Property, path)?;
    push_region(out, report.places.as_slice())?;
    push_title(out, &report.rule)?;
    push(out, "::")?;
    push_text(out, Escape::Message, &report.message)?;
    push_help(out, &report.help)?;
    push(out, "\n")
}

// Adds where the first place begins and ends.
fn push_region(out: &mut Text, places: &[ReportPlace]) -> Result<(), AllocError>
    ensures { OnOk result (out.new ≡ out.old ++ region_properties places.now) }
{
    match places {
        [first, ..] => push_range(out, &first.start, &first.end),
        [] => Ok(()),
    }
}

// Adds where a place begins and ends.
fn push_range(out: &mut Text, start: &Place, end: &Place) -> Result<(), AllocError>
    ensures { OnOk result (out.new ≡ out.old ++ range_properties start.now end.now) }
{
    push(out, ",line=")?;
    push_from_one(out, start.line)?;
    push(out, ",col=")?;
    push_from_one(out, start.column)?;
    push(out, ",endLine=")?;
    push_from_one(out, end.line)?;
    push(out, ",endColumn=")?;
    push_from_one(out, end.column)
}

// Adds the name of the rule as the title, where there is one.
fn push_title(out: &mut Text, rule: &Option<Text>) -> Result<(), AllocError>
    ensures { OnOk result (out.new ≡ out.old ++ title_property rule.now) }
{
    match rule {
        Some(name) => {
            push(out, ",title=")?;
            push_text(out, Escape::Property, name)
        }
        None => Ok(()),
    }
}

// Adds the advice behind an escaped line feed, where there is any.
fn push_help(out: &mut Text, help: &Option<Text>) -> Result<(), AllocError>
    ensures { OnOk result (out.new ≡ out.old ++ help_words help.now) }
{
    match help {
        Some(help) => {
            push(out, "%0Ahelp: ")?;
            push_text(out, Escape::Message, help)
        }
        None => Ok(()),
    }
}
