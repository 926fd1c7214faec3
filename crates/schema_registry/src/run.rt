ghost use Rattle.std.specs.Prelude.{◌≡◌, ◌+◌, ◌≤◌, ◌⊎◌, ℕ, List, Some, IfOk, length, map};
ghost use Rattle.std.specs.String.{string_bytes};
ghost use Rattle.cedar_io.specs.Outside.{Rose};
ghost use Rattle.cedar_io.specs.Input.{TookAtMost, max_input};
ghost use Rattle.cedar_runs.specs.Reports.{Report, report_of, read_fault_report};
ghost use Rattle.cedar_runs.specs.Runs.{device, NoneCounted};
ghost use Rattle.cedar_names.specs.declared.extension_table.ExtensionTable.{ExtensionTable};
ghost use Rattle.schema_registry.specs.Plans.{Asks, Reads, IsRegistryAnswer, IsRegistryPlan, IsRegistryRun};
ghost use Rattle.schema_registry.specs.Plans.{RepliedToAll};

use crate::laws::one_list_of_meanings;
use crate::replies::reply_all;
use cedar_data::{CloneIn, Text};
use cedar_io::{Sink, Source};
use cedar_messages::one_list_of_messages;
use cedar_names::ExtensionTable;
use cedar_runs::{Program, Reply, Status, run_program};
use cedar_schema_core::{one_table, one_text_meaning, table_of_words};
use std::alloc::{AllocError, Global};

const USAGE: &str = "usage: schema_registry register|register-with [NAME..]\n";

const CUT_SHORT: &str = "error: the last message is cut short\n";

/// The one command of a registry: to answer messages under a table of extension types.
#[derive(Drop)]
pub struct Register {
    pub table: ExtensionTable,
}

// The reply to a whole input.
fn answer(alloc: Global, table: &ExtensionTable, bytes: &[u8]) -> Result<Reply, AllocError>
    requires { length bytes.now ≤ max_input }
    ensures { IfOk result (λ reply. IsRegistryAnswer table.now bytes.now (report_of reply)) }
{
    match reply_all(alloc, table.clone_in(alloc)?, bytes)? {
        Some(out) => Ok(Reply {
            status: Status::Done,
            out,
            err: Text::new(alloc),
        }),
        None => Reply::line(alloc, Status::Refused, CUT_SHORT),
    }
}

impl Program for Register {
    ghost asks = { Asks };

    ghost reads = { Reads };

    ghost planned = { IsRegistryPlan };

    fn of_words(alloc: Global, words: &[String]) -> Result<Option<Register>, AllocError> {
        match table_of_words(alloc, words, "register", "register-with")? {
            Some(table) => Ok(Some(Register { table })),
            None => Ok(None),
        }
    }

    fn usage_reply(alloc: Global) -> Result<Reply, AllocError> {
        Reply::line(alloc, Status::Usage, USAGE)
    }

    fn own_reply(&self, alloc: Global) -> Result<Option<Reply>, AllocError> {
        Ok(None)
    }

    fn input_reply(&self, alloc: Global, bytes: &[u8]) -> Result<Reply, AllocError> {
        answer(alloc, &self.table, bytes)
    }

    fn one_command() {
        one_table();
    }

    fn long_inputs() {}

    fn one_plan() {
        one_table();
        one_text_meaning();
        one_list_of_messages();
        one_list_of_meanings();
    }
}

/// Runs a registry: reads messages where the words ask for it, and writes a line for each. `words` are those after the
/// program's name. Nothing is written before all memory is taken.
pub fn run_registry<S: Source, O: Sink, E: Sink>(
    alloc: Global,
    words: &[String],
    source: &mut S,
    out: &mut O,
    err: &mut E,
) -> Status
    // Done: the output took the reply to each message of the input, by what the messages mean.
    ensures done { let source_device = device S.left S.faults source.old source.new in
        let out_device = device O.taken O.faults out.old out.new in
        let err_device = device E.taken E.faults err.old err.new in
        result ≡ Status.Done → RepliedToAll (map string_bytes words.now) source_device out_device err_device }

    // How the run ended, by its cause.
    ensures run { let source_device = device S.left S.faults source.old source.new in
        let out_device = device O.taken O.faults out.old out.new in
        let err_device = device E.taken E.faults err.old err.new in
        IsRegistryRun (map string_bytes words.now) source_device out_device err_device result }

    // With no fault counted, the status is the one planned for the words and the input, or out of memory.
    ensures completes { let source_device = device S.left S.faults source.old source.new in
        let out_device = device O.taken O.faults out.old out.new in
        let err_device = device E.taken E.faults err.old err.new in
        (bytes : List ℕ) (plan : Report) → S.left source.old ≡ Some bytes
        → IsRegistryPlan (map string_bytes words.now) bytes plan → NoneCounted source_device out_device err_device
        → (result ≡ plan.status) ⊎ (result ≡ Status.Memory) }

    // A sink that surely takes what is planned for it counts no fault; of the error output this asks for room for a
    // read fault's line where a read failed.
    ensures out_sure { (bytes : List ℕ) (plan : Report) → S.left source.old ≡ Some bytes
        → IsRegistryPlan (map string_bytes words.now) bytes plan → length plan.out ≤ O.sure out.old
        → O.faults out.new ≡ O.faults out.old }
    ensures err_sure { (bytes : List ℕ) (plan : Report) → S.left source.old ≡ Some bytes
        → IsRegistryPlan (map string_bytes words.now) bytes plan → length plan.err ≤ E.sure err.old
        → (Rose (S.faults source.old) (S.faults source.new) → length read_fault_report.err ≤ E.sure err.old)
        → E.faults err.new ≡ E.faults err.old }

    // No more of the source is taken than one byte past what an input may have, and no count of faults falls.
    ensures taken { TookAtMost (max_input + 1) (S.left source.old) (S.left source.new) }
    ensures source_later { S.faults source.old ≤ S.faults source.new }
    ensures out_later { O.faults out.old ≤ O.faults out.new }
    ensures err_later { E.faults err.old ≤ E.faults err.new }
{
    run_program::<Register, S, O, E>(alloc, words, source, out, err)
}
