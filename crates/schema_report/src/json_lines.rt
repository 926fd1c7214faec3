//! Reports as JSON, one object a line.
ghost use Rattle.std.specs.Prelude.{◌++◌, codes, decimal, OnOk};
ghost use Rattle.std.specs.List.{flat_map};
ghost use Rattle.std.specs.Str.{encode_utf8_all};
ghost use Rattle.json.specs.Print.{quoted};
ghost use Rattle.serde_json.specs.Written.{compact_text};
ghost use Rattle.schema_json_quotes.specs.Adds.{Adds};
ghost use Rattle.schema_report.specs.Json.{optional_value, position_value, place_value, places_value, severity_value};
ghost use Rattle.schema_report.specs.Json.{report_value, later_place, json_line};

use crate::place::Place;
use crate::report::{Report, ReportPlace};
use cedar_data::{Severity, Text};
use itoa::Buffer;
use schema_json_quotes::pushing::push;
use schema_json_quotes::quotes::push_quoted;
use std::alloc::AllocError;

/// Adds the report as a line with one JSON object. Bytes count from 0, and lines and columns from 1. When out of
/// memory, a front of the line may have been added.
pub fn push_json(out: &mut String, path: &str, report: &Report) -> Result<(), AllocError>
    ensures { OnOk result (Adds out.old out.new (json_line path.now report.now)) }
{
    push_report(out, path, report)?;
    push(out, "\n")
}

// Adds the object of the report.
fn push_report(out: &mut String, path: &str, report: &Report) -> Result<(), AllocError>
    ensures { OnOk result (Adds out.old out.new (compact_text (report_value path.now report.now))) }
{
    push(out, "{\"help\":")?;
    push_optional(out, &report.help)?;
    push(out, ",\"message\":")?;
    push_text(out, &report.message)?;
    push(out, ",\"path\":")?;
    push_quoted(out, path)?;
    push(out, ",\"places\":")?;
    push_places(out, report.places.as_slice())?;
    push(out, ",\"rule\":")?;
    push_optional(out, &report.rule)?;
    push(out, ",\"severity\":")?;
    push_severity(out, report.severity)?;
    push(out, "}")
}

// Adds the text as a string.
fn push_text(out: &mut String, text: &Text) -> Result<(), AllocError>
    ensures { OnOk result (Adds out.old out.new (quoted (encode_utf8_all text.now))) }
{
    push_quoted(out, text.as_str())
}

// Adds the text as a string, or null where there is none.
fn push_optional(out: &mut String, text: &Option<Text>) -> Result<(), AllocError>
    ensures { OnOk result (Adds out.old out.new (compact_text (optional_value text.now))) }
{
    match text {
        Some(text) => push_text(out, text),
        None => push(out, "null"),
    }
}

// Adds what the severity is called.
fn push_severity(out: &mut String, severity: Severity) -> Result<(), AllocError>
    ensures { OnOk result (Adds out.old out.new (compact_text (severity_value severity))) }
{
    match severity {
        Severity::Error => push(out, "\"error\""),
        Severity::Warning => push(out, "\"warning\""),
    }
}

// Adds the list of the places.
fn push_places(out: &mut String, places: &[ReportPlace]) -> Result<(), AllocError>
    ensures { OnOk result (Adds out.old out.new (compact_text (places_value places.now))) }
{
    match places.split_first() {
        Some((first, others)) => push_some(out, first, others),
        None => push(out, "[]"),
    }
}

// Adds the list of these places.
fn push_some(
    out: &mut String,
    first: &ReportPlace,
    others: &[ReportPlace],
) -> Result<(), AllocError>
    ensures { OnOk result (Adds out.old out.new (codes "[" ++ (compact_text (place_value first.now)
        ++ (flat_map later_place others.now ++ codes "]")))) }
{
    push(out, "[")?;
    push_place(out, first)?;
    push_others(out, others)?;
    push(out, "]")
}

// Adds the places behind the first.
fn push_others(out: &mut String, places: &[ReportPlace]) -> Result<(), AllocError>
    ensures { OnOk result (Adds out.old out.new (flat_map later_place places.now)) }
{
    for place in places {
        push(out, ",")?;
        push_place(out, place)?;
    }
    Ok(())
}

// Adds a place.
fn push_place(out: &mut String, place: &ReportPlace) -> Result<(), AllocError>
    ensures { OnOk result (Adds out.old out.new (compact_text (place_value place.now))) }
{
    push(out, "{\"end\":")?;
    push_position(out, &place.end)?;
    push(out, ",\"start\":")?;
    push_position(out, &place.start)?;
    push(out, ",\"text\":")?;
    push_optional(out, &place.text)?;
    push(out, "}")
}

// Adds where a place begins or ends.
fn push_position(out: &mut String, place: &Place) -> Result<(), AllocError>
    ensures { OnOk result (Adds out.old out.new (compact_text (position_value place.now))) }
{
    push(out, "{\"byte\":")?;
    push_number(out, place.byte as u128)?;
    push(out, ",\"column\":")?;
    push_number(out, place.column as u128 + 1)?;
    push(out, ",\"line\":")?;
    push_number(out, place.line as u128 + 1)?;
    push(out, ",\"utf16\":")?;
    push_number(out, place.utf16 as u128 + 1)?;
    push(out, "}")
}

// Adds a number in decimal digits.
fn push_number(out: &mut String, number: u128) -> Result<(), AllocError>
    ensures { OnOk result (Adds out.old out.new (decimal number)) }
{
    let mut buffer = Buffer::new();
    push(out, buffer.format(number))
}
