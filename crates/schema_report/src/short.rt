//! Reports in one line each.
ghost use Rattle.std.specs.Prelude.{◌≡◌, ◌++◌, OnOk};
ghost use Rattle.std.specs.Str.{chars};
ghost use Rattle.schema_report.specs.Short.{severity_word, rule_words, line_and_column, place_words, short_line};

use crate::escape::{Escape, push_escaped, push_text};
use crate::place::Place;
use crate::pushing::{push, push_from_one};
use crate::report::{Report, ReportPlace};
use cedar_data::{Severity, Text};
use std::alloc::AllocError;

/// Adds the report as a line `path:line:column: error: message`, with the first of its places.
pub fn push_short(out: &mut Text, path: &str, report: &Report) -> Result<(), AllocError>
    ensures { OnOk result (out.new ≡ out.old ++ short_line (chars path.now) report.now) }
{
    push_escaped(out, Escape::Screen, path)?;
    push_place(out, report.places.as_slice())?;
    push(out, ": ")?;
    push_severity(out, report.severity)?;
    push_rule(out, &report.rule)?;
    push(out, ": ")?;
    push_text(out, Escape::Screen, &report.message)?;
    push(out, "\n")
}

// Adds the line and the column of the first place.
fn push_place(out: &mut Text, places: &[ReportPlace]) -> Result<(), AllocError>
    ensures { OnOk result (out.new ≡ out.old ++ place_words places.now) }
{
    match places {
        [first, ..] => push_line_and_column(out, &first.start),
        [] => Ok(()),
    }
}

// Adds the line and the column of the place, each behind a colon.
pub(crate) fn push_line_and_column(out: &mut Text, place: &Place) -> Result<(), AllocError>
    ensures { OnOk result (out.new ≡ out.old ++ line_and_column place.now) }
{
    push(out, ":")?;
    push_from_one(out, place.line)?;
    push(out, ":")?;
    push_from_one(out, place.column)
}

// Adds what the severity is called.
pub(crate) fn push_severity(out: &mut Text, severity: Severity) -> Result<(), AllocError>
    ensures { OnOk result (out.new ≡ out.old ++ severity_word severity) }
{
    match severity {
        Severity::Error => push(out, "error"),
        Severity::Warning => push(out, "warning"),
    }
}

// Adds the name of the rule in brackets, where there is one.
pub(crate) fn push_rule(out: &mut Text, rule: &Option<Text>) -> Result<(), AllocError>
    ensures { OnOk result (out.new ≡ out.old ++ rule_words rule.now) }
{
    match rule {
        Some(name) => {
            push(out, "[")?;
            push_text(out, Escape::Screen, name)?;
            push(out, "]")
        }
        None => Ok(()),
    }
}
