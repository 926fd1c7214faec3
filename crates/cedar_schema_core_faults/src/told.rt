//! The lines that report a refusal.
ghost use Rattle.std.specs.Prelude.{◌≡◌, ◌++◌, map, codes, decimal, IfOk, OnOk};
ghost use Rattle.std.specs.List.{flat_map};
ghost use Rattle.cedar_schema_core_faults.specs.Told.{label_line, help_line, told, told_lines, told_text, fault_text};

use crate::numbers::number_text;
use crate::recover_error::RecoverError;
use cedar_data::{Diagnostic, Label, Loc, NonEmpty, Text, around, message};
use schema_convert_errors::CedarSchemaParseErrors;
use std::alloc::{AllocError, Global};

// The place of a label, as byte offsets.
fn place_text(alloc: Global, span: Loc) -> Result<Text, AllocError>
    ensures { IfOk result (λ text. text ≡ codes "  at " ++ (decimal span.start ++ (codes ".." ++ decimal span.end))) }
{
    let start = number_text(alloc, span.start)?;
    let end = number_text(alloc, span.end)?;
    let mut text = around(alloc, "  at ", &start, "..")?;
    text.push_text(&end)?;
    Ok(text)
}

// Adds the line of a label.
fn push_label(alloc: Global, lines: &mut Text, label: &Label) -> Result<(), AllocError>
    ensures { OnOk result (lines.new ≡ lines.old ++ label_line label.now) }
{
    lines.push_text(&place_text(alloc, label.span)?)?;
    match &label.text {
        Some(text) => lines.push_text(&around(alloc, ": ", text, "\n")?),
        None => lines.push_text(&message(alloc, "\n")?),
    }
}

// Adds a line for each label.
fn push_labels(alloc: Global, lines: &mut Text, labels: &[Label]) -> Result<(), AllocError>
    ensures { OnOk result (lines.new ≡ lines.old ++ flat_map label_line labels.now) }
{
    for label in labels {
        push_label(alloc, lines, label)?;
    }
    Ok(())
}

// Adds the line of advice, where there is any.
fn push_help(alloc: Global, lines: &mut Text, help: Option<Text>) -> Result<(), AllocError>
    ensures { OnOk result (lines.new ≡ lines.old ++ help_line help) }
{
    match help {
        Some(help) => lines.push_text(&around(alloc, "  help: ", &help, "\n")?),
        None => Ok(()),
    }
}

// Adds the lines of one fault.
fn push_fault<D: Diagnostic>(
    alloc: Global,
    lines: &mut Text,
    source: &str,
    fault: &D,
) -> Result<(), AllocError>
    ensures { OnOk result (lines.new ≡ lines.old ++ told_lines (told D.text D.labels D.help source.now fault.now)) }
{
    let text = fault.text(alloc)?;
    let labels = fault.labels(alloc)?;
    let help = fault.help(alloc, source)?;
    lines.push_text(&around(alloc, "error: ", &text, "\n")?)?;
    push_labels(alloc, lines, &labels)?;
    push_help(alloc, lines, help)
}

// Adds the lines of the faults, in order.
fn push_faults<D: Diagnostic>(
    alloc: Global,
    lines: &mut Text,
    source: &str,
    faults: &NonEmpty<D>,
) -> Result<(), AllocError>
    ensures { OnOk result
        (lines.new ≡ lines.old ++ flat_map told_lines (map (told D.text D.labels D.help source.now) faults.now)) }
{
    for fault in faults.iter() {
        push_fault(alloc, lines, source, fault)?;
    }
    Ok(())
}

// Adds the lines of all faults of a text that is no fragment.
fn push_text_faults(
    alloc: Global,
    lines: &mut Text,
    source: &str,
    errors: &CedarSchemaParseErrors,
) -> Result<(), AllocError>
    ensures { OnOk result (lines.new ≡ lines.old ++ flat_map told_lines (told_text source.now errors.now)) }
{
    match errors {
        CedarSchemaParseErrors::SyntaxError(errors) => {
            push_faults(alloc, lines, source, &errors.errors)
        }
        CedarSchemaParseErrors::JsonError(errors) => {
            push_faults(alloc, lines, source, &errors.errors)
        }
        CedarSchemaParseErrors::Memory => push_fault(alloc, lines, source, errors),
    }
}

/// The lines that a refusal of the source is told in: for each fault, in order, `error: ` and what it says, a line
/// `  at S..E` for each place that it points to, in bytes, with what is said there, and a line `  help: ` with advice.
/// It errs when out of memory.
pub fn fault_text(alloc: Global, source: &str, fault: &RecoverError) -> Result<Text, AllocError>
    ensures { IfOk result (λ text. text ≡ fault_text source.now fault.now) }
{
    let mut lines = Text::new(alloc);
    match fault {
        RecoverError::Parse(errors) => push_text_faults(alloc, &mut lines, source, errors)?,
        RecoverError::Schema(error) => push_fault(alloc, &mut lines, source, error)?,
        RecoverError::Captured(captured) => push_fault(alloc, &mut lines, source, captured)?,
        RecoverError::Memory => push_fault(alloc, &mut lines, source, fault)?,
    }
    Ok(lines)
}
