// Reports in every form against the table.

use crate::report_table::{ROWS, Row, Span};
use cedar_data::{List, Severity, Text};
use schema_report::{Lines, Report, ReportPlace, push_github, push_human, push_json, push_short};
use std::alloc::{AllocError, Global};

/// The path in each form.
pub const PATH: &str = "a, b.cedarschema";

// A copy of the text, where there is one.
fn copied(alloc: Global, text: Option<&'static str>) -> Result<Option<Text>, AllocError> {
    match text {
        Some(text) => Ok(Some(Text::from_str(alloc, text)?)),
        None => Ok(None),
    }
}

// Adds the place of the span, where there is one.
fn push_place(
    alloc: Global,
    places: &mut List<ReportPlace>,
    lines: &Lines<'_>,
    span: Option<Span>,
) -> Result<(), AllocError> {
    let Some((from, to, said)) = span else {
        return Ok(());
    };
    let (Some(start), Some(end)) = (lines.place_of(from), lines.place_of(to)) else {
        return Ok(());
    };
    let text = copied(alloc, said)?;
    places.push(ReportPlace { start, end, text })
}

/// The report of the row.
pub fn report(alloc: Global, row: &Row, lines: &Lines<'_>) -> Result<Report, AllocError> {
    let mut places = List::new(alloc);
    push_place(alloc, &mut places, lines, row.first)?;
    push_place(alloc, &mut places, lines, row.second)?;
    Ok(Report {
        severity: Severity::Error,
        rule: None,
        message: Text::from_str(alloc, row.said)?,
        help: copied(alloc, row.help)?,
        places,
    })
}

// Are the report's forms those of the row?
fn agrees(alloc: Global, row: &Row) -> Result<bool, AllocError> {
    let lines = Lines::of(alloc, row.text)?;
    let report = report(alloc, row, &lines)?;
    let mut out = Text::new(alloc);
    push_human(alloc, &mut out, row.colour, PATH, &report, &lines)?;
    push_short(&mut out, PATH, &report)?;
    push_github(&mut out, PATH, &report)?;
    let mut json = String::new(alloc);
    push_json(&mut json, PATH, &report)?;
    Ok(out.as_str() == row.forms && json.as_str() == row.json)
}

#[test]
fn forms_agree_with_table(rt: HostRuntime) {
    for row in &ROWS {
        assert!(rt; agrees(rt.alloc(), row) == Ok(true), "{}", row.said);
    }
}
