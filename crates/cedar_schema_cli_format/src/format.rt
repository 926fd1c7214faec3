//! The command `format` over all its inputs.
ghost use Rattle.std.specs.Prelude.{◌≡◌, ◌<◌, map, length, slice_index_or, IfOk, OnErr};
ghost use Rattle.std.specs.String.{string_bytes};
ghost use Rattle.cedar_files.specs.Files.{Keeps};
ghost use Rattle.cedar_runs.specs.Reports.{report_of};
ghost use Rattle.cedar_schema_cli_format.specs.Formats.{IsFormatReport, IsCarriedOut, stopped_report};
ghost use Rattle.cedar_schema_cli_format.specs.Formatting.{TakesAll, HasPlan, replacement_of};
ghost use Rattle.cedar_schema_cli_format.specs.Plans.{Plan};
ghost use Rattle.cedar_schema_cli_words.specs.declared.asked.Options.{Options};
ghost use Rattle.cedar_schema_cli_format.specs.declared.changes.Change.{Change};

use crate::changes::{Change, replace_all};
use crate::formatting::Formatting;
use crate::inputs::take_named;
use cedar_data::Text;
use cedar_files::Files;
use cedar_runs::{Reply, Status};
use cedar_schema_cli_inputs::Given;
use cedar_schema_cli_words::Options;
use std::alloc::{AllocError, Global};

// Takes the inputs with these names, one after another.
fn take_all<F: Files>(
    alloc: Global,
    options: &Options,
    files: &mut F,
    standard: &Given,
    names: &[String],
) -> Result<Formatting, AllocError>
    ensures takes { IfOk result (TakesAll options.now (F.files files.old) standard.now (map string_bytes names.now)) }
    ensures same { Keeps (F.files files.old) (F.files files.new) }
{
    let mut run = Formatting::new(alloc, options);
    for name in names {
        take_named(alloc, &mut run, files, standard, name.as_str())?;
    }
    Ok(run)
}

// The reply where the change at this index could not be made.
fn stopped_reply(alloc: Global, mut changes: Vec<Change>, at: usize) -> Reply
    requires { at < length changes.items }
    ensures { (change : Change) → change ≡ slice_index_or changes.items at change
        → report_of result ≡ stopped_report (replacement_of change) }
{
    let Change {
        path: _path,
        beside: _beside,
        told,
        text: _text,
    } = changes.swap_remove(at);
    Reply {
        status: Status::WriteFault,
        out: Text::new(alloc),
        err: Text::from_string(told),
    }
}

// The reply of a run that has taken all its inputs. It replaces the files that change.
fn carry_out<F: Files>(alloc: Global, files: &mut F, run: Formatting) -> Result<Reply, AllocError>
    ensures report { (options : Options) (plan : Plan) → HasPlan options run plan → IfOk result (λ reply.
        IsCarriedOut options plan (F.files files.old) (F.files files.new) (report_of reply)) }
    ensures same { OnErr result (Keeps (F.files files.old) (F.files files.new)) }
{
    let Formatting {
        mode: _mode,
        sheet,
        out,
        status,
        changes,
    } = run;
    let err = sheet.finish()?;
    match replace_all(files, &changes) {
        Some(at) => Ok(stopped_reply(alloc, changes, at)),
        None => Ok(Reply {
            status,
            out: Text::from_string(out),
            err: Text::from_string(err),
        }),
    }
}

/// The reply to `format` with these options on the inputs with these names, where reading the standard input gave this.
/// It replaces files only behind all reading and laying out. When out of memory, it errs and files stay as they are.
pub fn format_reply<F: Files>(
    alloc: Global,
    options: &Options,
    files: &mut F,
    standard: &Given,
    names: &[String],
) -> Result<Reply, AllocError>
    ensures report { IfOk result (λ reply. IsFormatReport (F.files files.old) standard.now options.now
        (map string_bytes names.now) (F.files files.new) (report_of reply)) }
    ensures same { OnErr result (Keeps (F.files files.old) (F.files files.new)) }
{
    let run = take_all(alloc, options, files, standard, names)?;
    carry_out(alloc, files, run)
}
