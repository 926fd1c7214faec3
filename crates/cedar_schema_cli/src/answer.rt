//! The reply to what the words ask for.
ghost use Rattle.std.specs.Prelude.{◌≡◌, ◌≤◌, ◌+◌, map, IfOk, OnErr};
ghost use Rattle.std.specs.String.{string_bytes};
ghost use Rattle.cedar_files.specs.Files.{Keeps};
ghost use Rattle.cedar_io.specs.Input.{TookAtMost, max_input};
ghost use Rattle.cedar_runs.specs.Reports.{report_of};
ghost use Rattle.cedar_runs.specs.Runs.{device};
ghost use Rattle.cedar_schema_cli_words.specs.Readings.{reading_of};
ghost use Rattle.cedar_schema_cli_words.specs.Words.{asked_in, asks};
ghost use Rattle.cedar_schema_cli.specs.Runs.{IsReportOn};

use crate::usage::usage_reply;
use cedar_files::Files;
use cedar_io::Source;
use cedar_runs::Reply;
use cedar_schema_cli_check::check_reply;
use cedar_schema_cli_format::format_reply;
use cedar_schema_cli_inputs::read_standard;
use cedar_schema_cli_words::{Asked, Command, Words, read_words};
use std::alloc::{AllocError, Global};

// The reply to the command that is asked for.
fn asked_reply<F: Files, S: Source>(
    alloc: Global,
    asked: &Asked,
    files: &mut F,
    source: &mut S,
) -> Result<Reply, AllocError>
    ensures report { let source_device = device S.left S.faults source.old source.new in
        let reading = asks asked.now.command asked.now.options (map string_bytes asked.now.names.items) in
        IfOk result (λ reply. IsReportOn (F.files files.old) (F.files files.new) source_device reading
        (report_of reply)) }
    ensures same { OnErr result (Keeps (F.files files.old) (F.files files.new)) }
    ensures taken { TookAtMost (max_input + 1) (S.left source.old) (S.left source.new) }
    ensures later { S.faults source.old ≤ S.faults source.new }
{
    let names = asked.names.as_slice();
    let standard = read_standard(alloc, source, names)?;
    match asked.command {
        Command::Check => check_reply(alloc, &asked.options, files, &standard, names),
        Command::Format => format_reply(alloc, &asked.options, files, &standard, names),
    }
}

/// The reply to the words, given what the files hold and what the standard input gives. It errs when out of memory.
pub(crate) fn reply_to<F: Files, S: Source>(
    alloc: Global,
    words: &[String],
    files: &mut F,
    source: &mut S,
) -> Result<Reply, AllocError>
    ensures report { let source_device = device S.left S.faults source.old source.new in
        IfOk result (λ reply. IsReportOn (F.files files.old) (F.files files.new) source_device
        (asked_in (map string_bytes words.now)) (report_of reply)) }
    ensures same { OnErr result (Keeps (F.files files.old) (F.files files.new)) }
    ensures taken { TookAtMost (max_input + 1) (S.left source.old) (S.left source.new) }
    ensures later { S.faults source.old ≤ S.faults source.new }
{
    match read_words(alloc, words)? {
        Words::Right(asked) => asked_reply(alloc, &asked, files, source),
        Words::Wrong(fault) => usage_reply(alloc, &fault),
    }
}
