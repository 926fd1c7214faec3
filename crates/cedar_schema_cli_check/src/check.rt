//! The command `check` over all its inputs.
ghost use Rattle.std.specs.Prelude.{map, IfOk};
ghost use Rattle.std.specs.String.{string_bytes};
ghost use Rattle.cedar_files.specs.Files.{Keeps};
ghost use Rattle.cedar_runs.specs.Reports.{report_of};
ghost use Rattle.cedar_schema_cli_check.specs.Checking.{AddsAll};
ghost use Rattle.cedar_schema_cli_check.specs.Checks.{IsCheckReport};

use crate::inputs::check_named;
use crate::statuses::joined_status;
use cedar_data::Text;
use cedar_files::Files;
use cedar_names::ExtensionTable;
use cedar_runs::{Reply, Status};
use cedar_schema_cli_inputs::Given;
use cedar_schema_cli_sheets::Sheet;
use cedar_schema_cli_words::Options;
use std::alloc::{AllocError, Global};

// Reports on the inputs with these names, one after another.
fn check_all<F: Files>(
    alloc: Global,
    table: &ExtensionTable,
    sheet: &mut Sheet,
    files: &mut F,
    standard: &Given,
    names: &[String],
) -> Result<Status, AllocError>
    ensures status { IfOk result (AddsAll table.now (F.files files.old) standard.now (map string_bytes names.now)
        sheet.old sheet.new) }
    ensures same { Keeps (F.files files.old) (F.files files.new) }
{
    let mut status = Status::Done;
    for name in names {
        let next = check_named(alloc, table, sheet, files, standard, name.as_str())?;
        status = joined_status(status, next);
    }
    Ok(status)
}

/// The reply to `check` with these options on the inputs with these names, where reading the standard input gave this.
/// Files stay as they are. It errs when out of memory.
pub fn check_reply<F: Files>(
    alloc: Global,
    options: &Options,
    files: &mut F,
    standard: &Given,
    names: &[String],
) -> Result<Reply, AllocError>
    ensures report { IfOk result (λ reply. IsCheckReport (F.files files.old) standard.now options.now
        (map string_bytes names.now) (report_of reply)) }
    ensures same { Keeps (F.files files.old) (F.files files.new) }
{
    let table = ExtensionTable::all_available(alloc)?;
    let mut sheet = Sheet::new(alloc, options.form, options.all);
    let status = check_all(alloc, &table, &mut sheet, files, standard, names)?;
    Ok(Reply {
        status,
        out: Text::from_string(sheet.finish()?),
        err: Text::new(alloc),
    })
}
