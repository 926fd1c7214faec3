//! One input of `format`.
ghost use Rattle.std.specs.Prelude.{◌≡◌, Ok, OnOk, IfOk};
ghost use Rattle.cedar_files.specs.Files.{Keeps};
ghost use Rattle.cedar_schema_core_faults.specs.declared.recover_error.RecoverError.TheVariants.{Parse};
ghost use Rattle.schema_convert_errors.specs.declared.error_list.CedarSchemaParseErrors.TheVariants.{SyntaxError};
ghost use Rattle.schema_syntax.specs.ParseAnswers.{IsRefusalOf};
ghost use Rattle.schema_syntax_errors.specs.declared.parse_schema_error.ParseSchemaError.TheVariants.{Errors};
ghost use Rattle.schema_text_reports.specs.FaultReports.{fault_reports};
ghost use Rattle.cedar_schema_cli_inputs.specs.Inputs.{Given};
ghost use Rattle.cedar_schema_cli_format.specs.Formatting.{TakesGiven, TakesFile, TakesNamed};

use crate::formatting::Formatting;
use cedar_files::Files;
use cedar_runs::Status;
use cedar_schema_cli_check::{fault_status, fault_words};
use cedar_schema_cli_inputs::{Given, is_standard, read_file};
use cedar_schema_core_faults::RecoverError;
use schema_convert_errors::CedarSchemaParseErrors;
use schema_layout_texts::{LayoutError, layout_kept};
use schema_report::{Lines, Report};
use schema_syntax_errors::ParseErrors;
use schema_text_reports::push_fault_reports;
use std::alloc::{AllocError, Global};

// The reports of the faults of a text that is no schema.
fn syntax_reports(
    alloc: Global,
    lines: &Lines<'_>,
    errors: ParseErrors,
) -> Result<Vec<Report>, AllocError>
    ensures { IfOk result (λ reports. reports.items
        ≡ fault_reports lines.now.text (Parse (SyntaxError errors))) }
{
    let fault = RecoverError::Parse(CedarSchemaParseErrors::SyntaxError(errors));
    let mut reports = Vec::new(alloc);
    push_fault_reports(alloc, &mut reports, lines, &fault)?;
    Ok(reports)
}

// Takes a text that is no schema, for these faults.
fn take_refused(
    alloc: Global,
    run: &mut Formatting,
    name: &str,
    text: &str,
    errors: ParseErrors,
) -> Result<(), AllocError>
    requires { IsRefusalOf text.now (Errors errors) }
    ensures { OnOk result (TakesGiven name.now (Ok text.now) run.old run.new) }
{
    let lines = Lines::of(alloc, text)?;
    let reports = syntax_reports(alloc, &lines, errors)?;
    run.take_reports(alloc, name, &lines, &reports, Status::Refused)
}

// Takes a text.
fn take_text(alloc: Global, run: &mut Formatting, name: &str, text: &str) -> Result<(), AllocError>
    ensures { OnOk result (TakesGiven name.now (Ok text.now) run.old run.new) }
{
    match layout_kept(alloc, text) {
        Ok(new) => run.take_laid(alloc, name, text, new),
        Err(LayoutError::Syntax(errors)) => take_refused(alloc, run, name, text, errors),
        Err(LayoutError::Memory) => Err(AllocError),
    }
}

// Takes the bytes of an input.
fn take_bytes(
    alloc: Global,
    run: &mut Formatting,
    name: &str,
    bytes: &[u8],
) -> Result<(), AllocError>
    ensures { OnOk result (TakesGiven name.now (Ok bytes.now) run.old run.new) }
{
    match str::from_utf8(bytes) {
        Ok(text) => take_text(alloc, run, name, text),
        Err(_) => run.take_fault(alloc, name, "the input is not UTF-8", Status::NotText),
    }
}

// Takes what reading an input gave.
fn take_given(
    alloc: Global,
    run: &mut Formatting,
    name: &str,
    given: &Given,
) -> Result<(), AllocError>
    ensures { OnOk result (TakesGiven name.now given.now run.old run.new) }
{
    match given {
        Ok(bytes) => take_bytes(alloc, run, name, bytes.as_slice()),
        Err(fault) => run.take_fault(alloc, name, fault_words(*fault), fault_status(*fault)),
    }
}

// Takes the file at this path.
fn take_file<F: Files>(
    alloc: Global,
    run: &mut Formatting,
    files: &mut F,
    path: &str,
) -> Result<(), AllocError>
    ensures takes { OnOk result (TakesFile (F.files files.old) path.now run.old run.new) }
    ensures same { Keeps (F.files files.old) (F.files files.new) }
{
    let given = read_file(alloc, files, path)?;
    take_given(alloc, run, path, &given)
}

/// Takes the input with this name. When out of memory, a part of it may be taken.
pub(crate) fn take_named<F: Files>(
    alloc: Global,
    run: &mut Formatting,
    files: &mut F,
    standard: &Given,
    name: &str,
) -> Result<(), AllocError>
    ensures takes { OnOk result
        (TakesNamed (F.files files.old) standard.now name.now run.old run.new) }
    ensures same { Keeps (F.files files.old) (F.files files.new) }
{
    if is_standard(name) {
        return take_given(alloc, run, name, standard);
    }
    take_file(alloc, run, files, name)
}
