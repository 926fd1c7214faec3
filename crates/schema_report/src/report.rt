//! What is reported of a fault, and where.
ghost use Rattle.std.specs.Prelude.{◌≡◌, ◌++◌, [], ◌∷◌, IfOk, OnOk};
ghost use Rattle.std.specs.List.{flat_map};
ghost use Rattle.std.specs.Option.{option_to_list};
ghost use Rattle.schema_report.specs.Reports.{label_places, reported};

use crate::lines::Lines;
use crate::place::Place;
use cedar_data::{CloneIn, Diagnostic, Label, List, Severity, Text};
use std::alloc::{AllocError, Global};

/// A fault or a warning, with places that people can find.
#[derive(Drop)]
pub struct Report {
    /// Whether it keeps the text from being taken.
    pub severity: Severity,
    /// The name of the rule that is broken, where it has one.
    pub rule: Option<Text>,
    /// What it says.
    pub message: Text,
    /// Advice, where there is any.
    pub help: Option<Text>,
    /// The places that it points to, in order.
    pub places: List<ReportPlace>,
}

/// A place that a report points to, up to and not including its end, and what it says there.
#[derive(Drop)]
pub struct ReportPlace {
    pub start: Place,
    pub end: Place,
    pub text: Option<Text>,
}

/// The report of a fault of the text. Its places are the labels of the fault, in order, but for such as are no range of
/// characters of the text. It errs when out of memory.
pub fn report_of<D: Diagnostic>(
    alloc: Global,
    rule: Option<Text>,
    fault: &D,
    lines: &Lines<'_>,
) -> Result<Report, AllocError>
    ensures { IfOk result
        (λ report. report ≡ reported D.severity D.text D.help D.labels rule lines.now.text fault.now) }
{
    let message = fault.text(alloc)?;
    let help = fault.help(alloc, lines.text())?;
    let labels = fault.labels(alloc)?;
    let places = report_places(alloc, &labels, lines)?;
    Ok(Report {
        severity: fault.severity(),
        rule,
        message,
        help,
        places,
    })
}

// The places of the labels, in order.
fn report_places(
    alloc: Global,
    labels: &[Label],
    lines: &Lines<'_>,
) -> Result<List<ReportPlace>, AllocError>
    ensures { IfOk result (λ places. places ≡ flat_map (label_places lines.now.text) labels.now) }
{
    let mut places = List::new(alloc);
    for label in labels {
        push_place(alloc, &mut places, label, lines)?;
    }
    Ok(places)
}

// Adds the place of the label, where it is one of the text.
fn push_place(
    alloc: Global,
    places: &mut List<ReportPlace>,
    label: &Label,
    lines: &Lines<'_>,
) -> Result<(), AllocError>
    ensures { OnOk result (places.new ≡ places.old ++ label_places lines.now.text label.now) }
{
    match place_of_label(alloc, label, lines)? {
        Some(place) => places.push(place),
        None => Ok(()),
    }
}

// The place of the label, where it is one of the text.
fn place_of_label(
    alloc: Global,
    label: &Label,
    lines: &Lines<'_>,
) -> Result<Option<ReportPlace>, AllocError>
    ensures { IfOk result (λ place. option_to_list place ≡ label_places lines.now.text label.now) }
{
    let Some(start) = lines.place_of(label.span.start) else {
        return Ok(None);
    };
    let Some(end) = lines.place_of(label.span.end) else {
        return Ok(None);
    };
    let said = label.text.clone_in(alloc)?;
    Ok(Some(ReportPlace {
        start,
        end,
        text: said,
    }))
}
