ghost use Rattle.std.specs.Prelude.{◌≡◌, ◌↔◌, ◌+◌, ◌≤◌, ◌⊎◌, ℕ, List, Some, IfOk, length, map};
ghost use Rattle.std.specs.String.{string_bytes};
ghost use Rattle.cedar_io.specs.Outside.{Rose};
ghost use Rattle.cedar_io.specs.Input.{TookAtMost, max_input};
ghost use Rattle.cedar_runs.specs.Reports.{Report, report_of, read_fault_report};
ghost use Rattle.cedar_runs.specs.Runs.{device, AsksToRead, IsReported, IsRun, NoneCounted};

use crate::delivery::deliver;
use crate::program::Program;
use crate::reply::Reply;
use crate::status::Status;
use cedar_io::{ReadEnd, Sink, Source, read_input};
use std::alloc::{AllocError, Global};

const READ_FAULT: &str = "error: reading failed\n";

// Reads the input of a command, and takes all memory that the reply needs.
fn read_reply<P: Program, S: Source>(
    alloc: Global,
    command: &P,
    source: &mut S,
) -> Result<Reply, AllocError>
    ensures reported { let source_device = device S.left S.faults source.old source.new in
        (words : List (List ℕ)) → P.asks words command.now → P.reads command.now
        → IfOk result (λ reply.
        IsReported (AsksToRead P.asks P.reads words) (P.planned words) source_device (report_of reply)) }
    ensures taken { TookAtMost (max_input + 1) (S.left source.old) (S.left source.new) }
    ensures later { S.faults source.old ≤ S.faults source.new }
{
    P::long_inputs();
    match read_input(alloc, source) {
        Ok(bytes) => command.input_reply(alloc, &bytes),
        Err(ReadEnd::Failed) => Reply::line(alloc, Status::ReadFault, READ_FAULT),
        Err(ReadEnd::TooLong) => Reply::too_long(alloc),
        Err(ReadEnd::Memory) => Err(AllocError),
    }
}

// Reads the input where the words ask for a command that reads it, and takes all memory that the run needs.
fn prepare<P: Program, S: Source>(
    alloc: Global,
    words: &[String],
    source: &mut S,
) -> Result<Reply, AllocError>
    ensures reported { let source_device = device S.left S.faults source.old source.new in
        let asked = map string_bytes words.now in
        IfOk result (λ reply.
        IsReported (AsksToRead P.asks P.reads asked) (P.planned asked) source_device (report_of reply)) }
    ensures unread { (AsksToRead P.asks P.reads (map string_bytes words.now) → ⊥) → source.new ≡ source.old }
    ensures taken { TookAtMost (max_input + 1) (S.left source.old) (S.left source.new) }
    ensures later { S.faults source.old ≤ S.faults source.new }
{
    P::one_command();
    let Some(command) = P::of_words(alloc, words)? else {
        return P::usage_reply(alloc);
    };
    match command.own_reply(alloc)? {
        Some(reply) => Ok(reply),
        None => read_reply(alloc, &command, source),
    }
}

/// Runs a program: reads the source where the words ask for it, and writes to the two sinks. `words` are those after
/// the program's name. Nothing is written before all memory is taken.
pub fn run_program<P: Program, S: Source, O: Sink, E: Sink>(
    alloc: Global,
    words: &[String],
    source: &mut S,
    out: &mut O,
    err: &mut E,
) -> Status
    // How the run ended, by its cause.
    ensures run { let source_device = device S.left S.faults source.old source.new in
        let out_device = device O.taken O.faults out.old out.new in
        let err_device = device E.taken E.faults err.old err.new in
        let asked = map string_bytes words.now in
        IsRun (AsksToRead P.asks P.reads asked) (P.planned asked) source_device out_device err_device result }

    // With no fault counted, the status is the one planned for the words and the input, or out of memory.
    ensures completes { let source_device = device S.left S.faults source.old source.new in
        let out_device = device O.taken O.faults out.old out.new in
        let err_device = device E.taken E.faults err.old err.new in
        (bytes : List ℕ) (plan : Report) → S.left source.old ≡ Some bytes
        → P.planned (map string_bytes words.now) bytes plan → NoneCounted source_device out_device err_device
        → (result ≡ plan.status) ⊎ (result ≡ Status.Memory) }

    // A sink that surely takes what is planned for it counts no fault; of the error output this asks for room for a
    // read fault's line where a read failed.
    ensures out_sure { (bytes : List ℕ) (plan : Report) → S.left source.old ≡ Some bytes
        → P.planned (map string_bytes words.now) bytes plan → length plan.out ≤ O.sure out.old
        → O.faults out.new ≡ O.faults out.old }
    ensures err_sure { (bytes : List ℕ) (plan : Report) → S.left source.old ≡ Some bytes
        → P.planned (map string_bytes words.now) bytes plan → length plan.err ≤ E.sure err.old
        → (Rose (S.faults source.old) (S.faults source.new) → length read_fault_report.err ≤ E.sure err.old)
        → E.faults err.new ≡ E.faults err.old }

    // No more of the source is taken than one byte past what an input may have, and no count of faults falls.
    ensures taken { TookAtMost (max_input + 1) (S.left source.old) (S.left source.new) }
    ensures source_later { S.faults source.old ≤ S.faults source.new }
    ensures out_later { O.faults out.old ≤ O.faults out.new }
    ensures err_later { E.faults err.old ≤ E.faults err.new }
{
    P::one_plan();
    match prepare::<P, S>(alloc, words, source) {
        Ok(reply) => deliver(&reply, out, err),
        Err(_) => Status::Memory,
    }
}
