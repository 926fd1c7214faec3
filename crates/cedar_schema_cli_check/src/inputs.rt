//! What is reported of one input.
ghost use Rattle.std.specs.Prelude.{Ok, IfOk};
ghost use Rattle.cedar_files.specs.Files.{Keeps};
ghost use Rattle.cedar_schema_cli_inputs.specs.Inputs.{Given, IsRead};
ghost use Rattle.cedar_schema_cli_check.specs.Checking.{Adds, AddsNamed};

use crate::statuses::{fault_status, fault_words, reports_status};
use cedar_files::Files;
use cedar_names::ExtensionTable;
use cedar_runs::Status;
use cedar_schema_cli_inputs::{Given, is_standard, read_file};
use cedar_schema_cli_sheets::Sheet;
use schema_report::Lines;
use schema_text_reports::text_reports;
use std::alloc::{AllocError, Global};

// Reports on a text.
fn check_text(
    alloc: Global,
    table: &ExtensionTable,
    sheet: &mut Sheet,
    name: &str,
    text: &str,
) -> Result<Status, AllocError>
    ensures { IfOk result (Adds table.now name.now (Ok text.now) sheet.old sheet.new) }
{
    let lines = Lines::of(alloc, text)?;
    let reports = text_reports(alloc, &lines, table)?;
    sheet.push_all(alloc, name, &lines, &reports)?;
    Ok(reports_status(&reports))
}

// Reports on the bytes of an input.
fn check_bytes(
    alloc: Global,
    table: &ExtensionTable,
    sheet: &mut Sheet,
    name: &str,
    bytes: &[u8],
) -> Result<Status, AllocError>
    ensures { IfOk result (Adds table.now name.now (Ok bytes.now) sheet.old sheet.new) }
{
    match str::from_utf8(bytes) {
        Ok(text) => check_text(alloc, table, sheet, name, text),
        Err(_) => {
            sheet.push_fault(alloc, name, "the input is not UTF-8")?;
            Ok(Status::NotText)
        }
    }
}

// Reports on what reading an input gave.
fn check_given(
    alloc: Global,
    table: &ExtensionTable,
    sheet: &mut Sheet,
    name: &str,
    given: &Given,
) -> Result<Status, AllocError>
    ensures { IfOk result (Adds table.now name.now given.now sheet.old sheet.new) }
{
    match given {
        Ok(bytes) => check_bytes(alloc, table, sheet, name, bytes.as_slice()),
        Err(fault) => {
            sheet.push_fault(alloc, name, fault_words(*fault))?;
            Ok(fault_status(*fault))
        }
    }
}

// Reports on the file at this path.
fn check_file<F: Files>(
    alloc: Global,
    table: &ExtensionTable,
    sheet: &mut Sheet,
    files: &mut F,
    path: &str,
) -> Result<Status, AllocError>
    ensures status { IfOk result (λ status. (given : Given) × IsRead (F.files files.old) path.now given
        × Adds table.now path.now given sheet.old sheet.new status) }
    ensures same { Keeps (F.files files.old) (F.files files.new) }
{
    let given = read_file(alloc, files, path)?;
    check_given(alloc, table, sheet, path, &given)
}

/// Reports on the input with this name. When out of memory, the sheet may have a front of its reports.
pub(crate) fn check_named<F: Files>(
    alloc: Global,
    table: &ExtensionTable,
    sheet: &mut Sheet,
    files: &mut F,
    standard: &Given,
    name: &str,
) -> Result<Status, AllocError>
    ensures status { IfOk result
        (AddsNamed table.now (F.files files.old) standard.now name.now sheet.old sheet.new) }
    ensures same { Keeps (F.files files.old) (F.files files.new) }
{
    if is_standard(name) {
        return check_given(alloc, table, sheet, name, standard);
    }
    check_file(alloc, table, sheet, files, name)
}
