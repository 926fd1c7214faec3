//! The places of a report as locations of SARIF.
ghost use Rattle.std.specs.Prelude.{◌++◌, codes, OnOk, Some, None};
ghost use Rattle.std.specs.List.{flat_map};
ghost use Rattle.serde_json.specs.Written.{compact_text};
ghost use Rattle.schema_json_quotes.specs.Adds.{Adds};
ghost use Rattle.schema_report_sarif.specs.Sarif.{region_value, artifact_value, physical_value, placed_value};
ghost use Rattle.schema_report_sarif.specs.Sarif.{location_value};
ghost use Rattle.schema_report_sarif.specs.Sarif.{whole_value, file_value, main_value, locations_value, related_value};
ghost use Rattle.schema_report_sarif.specs.Sarif.{list_value, later_location};

use crate::uris::push_uri;
use crate::values::{push_from_one, push_message};
use cedar_data::Text;
use schema_json_quotes::pushing::push;
use schema_report::{Place, ReportPlace};
use std::alloc::{AllocError, Global};

// Adds the range between two places.
fn push_region(out: &mut String, start: &Place, end: &Place) -> Result<(), AllocError>
    ensures { OnOk result (Adds out.old out.new (compact_text (region_value start.now end.now))) }
{
    push(out, "{\"endColumn\":")?;
    push_from_one(out, end.column)?;
    push(out, ",\"endLine\":")?;
    push_from_one(out, end.line)?;
    push(out, ",\"startColumn\":")?;
    push_from_one(out, start.column)?;
    push(out, ",\"startLine\":")?;
    push_from_one(out, start.line)?;
    push(out, "}")
}

// Adds the file at this path.
fn push_artifact(alloc: Global, out: &mut String, path: &str) -> Result<(), AllocError>
    ensures { OnOk result (Adds out.old out.new (compact_text (artifact_value path.now))) }
{
    push(out, "{\"uri\":")?;
    push_uri(alloc, out, path)?;
    push(out, "}")
}

// Adds the range of a place in the file at this path.
fn push_physical(
    alloc: Global,
    out: &mut String,
    path: &str,
    place: &ReportPlace,
) -> Result<(), AllocError>
    ensures { OnOk result (Adds out.old out.new (compact_text (physical_value path.now place.now))) }
{
    push(out, "{\"artifactLocation\":")?;
    push_artifact(alloc, out, path)?;
    push(out, ",\"region\":")?;
    push_region(out, &place.start, &place.end)?;
    push(out, "}")
}

// Adds the place in the file at this path, with what is said there.
fn push_location(
    alloc: Global,
    out: &mut String,
    path: &str,
    place: &ReportPlace,
) -> Result<(), AllocError>
    ensures { OnOk result (Adds out.old out.new (compact_text (location_value path.now place.now))) }
{
    match &place.text {
        Some(text) => push_told(alloc, out, path, place, text),
        None => push_plain(alloc, out, path, place),
    }
}

// Adds the place in the file at this path, where this is said.
fn push_told(
    alloc: Global,
    out: &mut String,
    path: &str,
    place: &ReportPlace,
    text: &Text,
) -> Result<(), AllocError>
    ensures { OnOk result (Adds out.old out.new
        (compact_text (placed_value (Some text.now) (physical_value path.now place.now)))) }
{
    push(out, "{\"message\":")?;
    push_message(out, text)?;
    push(out, ",\"physicalLocation\":")?;
    push_physical(alloc, out, path, place)?;
    push(out, "}")
}

// Adds the place in the file at this path, where nothing is said.
fn push_plain(
    alloc: Global,
    out: &mut String,
    path: &str,
    place: &ReportPlace,
) -> Result<(), AllocError>
    ensures { OnOk result (Adds out.old out.new
        (compact_text (placed_value None (physical_value path.now place.now)))) }
{
    push(out, "{\"physicalLocation\":")?;
    push_physical(alloc, out, path, place)?;
    push(out, "}")
}

// Adds the file at this path as a place of its own.
fn push_whole(alloc: Global, out: &mut String, path: &str) -> Result<(), AllocError>
    ensures { OnOk result (Adds out.old out.new (compact_text (whole_value path.now))) }
{
    push(out, "{\"artifactLocation\":")?;
    push_artifact(alloc, out, path)?;
    push(out, "}")
}

// Adds the file at this path as a place.
fn push_file(alloc: Global, out: &mut String, path: &str) -> Result<(), AllocError>
    ensures { OnOk result (Adds out.old out.new (compact_text (file_value path.now))) }
{
    push(out, "{\"physicalLocation\":")?;
    push_whole(alloc, out, path)?;
    push(out, "}")
}

// Adds the list of the first of the places, or of the file where there is none.
pub(crate) fn push_locations(
    alloc: Global,
    out: &mut String,
    path: &str,
    places: &[ReportPlace],
) -> Result<(), AllocError>
    ensures { OnOk result (Adds out.old out.new (compact_text (locations_value path.now places.now))) }
{
    push(out, "[")?;
    push_main(alloc, out, path, places)?;
    push(out, "]")
}

// Adds the first of the places, or the file where there is none.
fn push_main(
    alloc: Global,
    out: &mut String,
    path: &str,
    places: &[ReportPlace],
) -> Result<(), AllocError>
    ensures { OnOk result (Adds out.old out.new (compact_text (main_value path.now places.now))) }
{
    match places.split_first() {
        Some((first, _others)) => push_location(alloc, out, path, first),
        None => push_file(alloc, out, path),
    }
}

// Adds the list of the places behind the first.
pub(crate) fn push_related(
    alloc: Global,
    out: &mut String,
    path: &str,
    places: &[ReportPlace],
) -> Result<(), AllocError>
    ensures { OnOk result (Adds out.old out.new (compact_text (related_value path.now places.now))) }
{
    match places.split_first() {
        Some((_first, others)) => push_list(alloc, out, path, others),
        None => push(out, "[]"),
    }
}

// Adds the list of these places.
fn push_list(
    alloc: Global,
    out: &mut String,
    path: &str,
    places: &[ReportPlace],
) -> Result<(), AllocError>
    ensures { OnOk result (Adds out.old out.new (compact_text (list_value path.now places.now))) }
{
    match places.split_first() {
        Some((first, others)) => push_some(alloc, out, path, first, others),
        None => push(out, "[]"),
    }
}

// Adds the list of these places, of which there are some.
fn push_some(
    alloc: Global,
    out: &mut String,
    path: &str,
    first: &ReportPlace,
    others: &[ReportPlace],
) -> Result<(), AllocError>
    ensures { OnOk result (Adds out.old out.new (codes "[" ++ (compact_text (location_value path.now first.now)
        ++ (flat_map (later_location path.now) others.now ++ codes "]")))) }
{
    push(out, "[")?;
    push_location(alloc, out, path, first)?;
    push_others(alloc, out, path, others)?;
    push(out, "]")
}

// Adds the places behind others.
fn push_others(
    alloc: Global,
    out: &mut String,
    path: &str,
    places: &[ReportPlace],
) -> Result<(), AllocError>
    ensures { OnOk result (Adds out.old out.new (flat_map (later_location path.now) places.now)) }
{
    for place in places {
        push(out, ",")?;
        push_location(alloc, out, path, place)?;
    }
    Ok(())
}
