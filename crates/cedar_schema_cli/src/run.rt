//! A run of the program.
ghost use Rattle.std.specs.Prelude.{◌≤◌, ◌+◌, map};
ghost use Rattle.std.specs.String.{string_bytes};
ghost use Rattle.cedar_io.specs.Input.{TookAtMost, max_input};
ghost use Rattle.cedar_runs.specs.Runs.{device};
ghost use Rattle.cedar_schema_cli.specs.Runs.{IsCliRun};

use crate::answer::reply_to;
use cedar_files::Files;
use cedar_io::{Sink, Source};
use cedar_runs::{Status, deliver};
use std::alloc::Global;

/// Runs the program: reads the files and the standard input that the words name, and writes to the two sinks; `format`
/// with `--write` replaces files. `words` are those after the program's name. Nothing is written before all memory is
/// taken.
pub fn run_cli<F: Files, S: Source, O: Sink, E: Sink>(
    alloc: Global,
    words: &[String],
    files: &mut F,
    source: &mut S,
    out: &mut O,
    err: &mut E,
) -> Status
    // How the run ended, by its cause.
    ensures run { let source_device = device S.left S.faults source.old source.new in
        let out_device = device O.taken O.faults out.old out.new in
        let err_device = device E.taken E.faults err.old err.new in
        IsCliRun (map string_bytes words.now) (F.files files.old) (F.files files.new) source_device out_device
        err_device result }

    // No more of the source is taken than one byte past what an input may have, and no count of faults falls.
    ensures taken { TookAtMost (max_input + 1) (S.left source.old) (S.left source.new) }
    ensures source_later { S.faults source.old ≤ S.faults source.new }
    ensures out_later { O.faults out.old ≤ O.faults out.new }
    ensures err_later { E.faults err.old ≤ E.faults err.new }
{
    match reply_to(alloc, words, files, source) {
        Ok(reply) => deliver(&reply, out, err),
        Err(_) => Status::Memory,
    }
}
