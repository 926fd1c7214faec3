ghost use Rattle.std.specs.Prelude.{◌≡◌, ◌≢◌, ◌↔◌, ◌+◌, ◌≤◌, ◌⊎◌, ℕ, List, Some, IfOk, length, map};
ghost use Rattle.std.specs.String.{string_bytes};
ghost use Rattle.std.specs.Str.{encode_utf8_all};
ghost use Rattle.cedar_io.specs.Outside.{Rose};
ghost use Rattle.cedar_io.specs.Input.{TookAtMost, max_input};
ghost use Rattle.cedar_names.specs.Meaning.{SchemaMeaning};
ghost use Rattle.cedar_names.specs.declared.extension_table.ExtensionTable.{ExtensionTable};
ghost use Rattle.cedar_schema_core.specs.Commands.{Asks, ReadsInput, own_text};
ghost use Rattle.cedar_schema_core.specs.Headline.{InputMeans, WroteMeaning, WroteNothing};
ghost use Rattle.cedar_schema_core.specs.Plan.{IsPlan, IsInputPlan, IsAnswer, done_report, refused_report};
ghost use Rattle.cedar_schema_core.specs.Run.{IsToolRun, Completed, KeepsMeaning};
ghost use Rattle.cedar_runs.specs.Reports.{Report, report_of, read_fault_report};
ghost use Rattle.cedar_runs.specs.Runs.{device, NoneCounted};

use crate::command::Command;
use crate::laws::{
    canonical_texts_mean_the_same, canonical_texts_tell_meanings_apart, generated_texts_are_valid,
    one_plan, refused_or_valid, texts_of_json_mean_the_same,
};
use crate::output::{Output, output_of, own_text_of};
use crate::reply::warning_lines;
use cedar_data::Text;
use cedar_io::{MAX_INPUT, Sink, Source};
use cedar_runs::{Program, Reply, Status, run_program};
use cedar_schema_core_faults::{RecoverError, fault_text};
use std::alloc::{AllocError, Global};

const USAGE: &str = "usage: cedar_schema_tool COMMAND [NAME..]\n";

// The reply where nothing is written of a text.
fn refused_reply(alloc: Global, text: &str, fault: &RecoverError) -> Result<Reply, AllocError>
    ensures { IfOk result (λ reply. (fault.now ≢ RecoverError.Memory)
        × (report_of reply ≡ refused_report text.now fault.now)) }
{
    match fault {
        RecoverError::Memory => Err(AllocError),
        RecoverError::Parse(_) | RecoverError::Schema(_) | RecoverError::Captured(_) => Ok(Reply {
            status: Status::Refused,
            out: Text::new(alloc),
            err: fault_text(alloc, text, fault)?,
        }),
    }
}

// The reply of what a command writes, with its warnings.
fn done_reply(alloc: Global, output: Output) -> Result<Reply, AllocError>
    ensures { IfOk result (λ reply. report_of reply ≡ done_report (encode_utf8_all output.text) output.warnings.items) }
{
    let err = warning_lines(alloc, &output.warnings)?;
    Ok(Reply {
        status: Status::Done,
        out: output.text,
        err,
    })
}

// The reply for a text.
fn text_reply(alloc: Global, command: &Command, text: &str) -> Result<Reply, AllocError>
    ensures { IfOk result (λ reply. IsAnswer command.now text.now (report_of reply)) }
{
    match output_of(alloc, command, text) {
        Ok(output) => done_reply(alloc, output),
        Err(fault) => refused_reply(alloc, text, &fault),
    }
}

// The reply for a whole input.
fn input_reply(alloc: Global, command: &Command, bytes: &[u8]) -> Result<Reply, AllocError>
    requires { length bytes.now ≤ max_input }
    ensures { IfOk result (λ reply. IsInputPlan command.now bytes.now (report_of reply)) }
{
    match str::from_utf8(bytes) {
        Ok(text) => text_reply(alloc, command, text),
        Err(_) => Reply::not_text(alloc),
    }
}

// The reply for the text that a command makes for itself, which is never refused.
fn own_reply(alloc: Global, command: &Command, text: &str) -> Result<Reply, AllocError>
    requires own { own_text command.now ≡ Some text.now }
    ensures { (words : List (List ℕ)) (bytes : List ℕ) → Asks words command.now
        → IfOk result (λ reply. IsPlan words bytes (report_of reply)) }
{
    generated_texts_are_valid();
    refused_or_valid();
    text_reply(alloc, command, text)
}

/// The reply of a command to an input in memory: what a run of the command would end with and write, where no device
/// fails. It errs when out of memory.
pub fn reply_to(alloc: Global, command: &Command, bytes: &[u8]) -> Result<Reply, AllocError>
    ensures { IfOk result (λ reply. IsInputPlan command.now bytes.now (report_of reply)) }
{
    if bytes.len() > MAX_INPUT {
        return Reply::too_long(alloc);
    }
    input_reply(alloc, command, bytes)
}

impl Program for Command {
    ghost asks = { Asks };

    ghost reads = { ReadsInput };

    ghost planned = { IsPlan };

    fn of_words(alloc: Global, words: &[String]) -> Result<Option<Command>, AllocError> {
        Command::of_words(alloc, words)
    }

    fn usage_reply(alloc: Global) -> Result<Reply, AllocError> {
        Reply::line(alloc, Status::Usage, USAGE)
    }

    fn own_reply(&self, alloc: Global) -> Result<Option<Reply>, AllocError> {
        match own_text_of(alloc, self)? {
            Some(text) => Ok(Some(own_reply(alloc, self, text.as_str())?)),
            None => Ok(None),
        }
    }

    fn input_reply(&self, alloc: Global, bytes: &[u8]) -> Result<Reply, AllocError> {
        input_reply(alloc, self, bytes)
    }

    fn one_command() {}

    fn long_inputs() {}

    fn one_plan() {
        one_plan();
    }
}

/// Runs the program: reads the source where the words ask for it, and writes to the two sinks. `words` are those after
/// the program's name. Nothing is written before all memory is taken.
pub fn run_tool<S: Source, O: Sink, E: Sink>(
    alloc: Global,
    words: &[String],
    source: &mut S,
    out: &mut O,
    err: &mut E,
) -> Status
    // A recovery in which no device failed and the source and the output tell what they hold: memory was out and
    // nothing was written; or the run is done exactly where the input is valid, and then the output took the canonical
    // text of what the input means, which means the same.
    ensures headline { let source_device = device S.left S.faults source.old source.new in
        let out_device = device O.taken O.faults out.old out.new in
        let err_device = device E.taken E.faults err.old err.new in
        (table : ExtensionTable) (bytes taken : List ℕ) → Asks (map string_bytes words.now) (Command.Recover table)
        → S.left source.old ≡ Some bytes → O.taken out.old ≡ Some taken
        → NoneCounted source_device out_device err_device
        → WroteNothing out_device err_device result
        ⊎ (((m : SchemaMeaning) → InputMeans bytes table m ↔ WroteMeaning table m out_device result)
        × (result ≡ Status.Done → (m : SchemaMeaning) × InputMeans bytes table m)) }

    // How the run ended, by its cause.
    ensures run { let source_device = device S.left S.faults source.old source.new in
        let out_device = device O.taken O.faults out.old out.new in
        let err_device = device E.taken E.faults err.old err.new in
        IsToolRun (map string_bytes words.now) source_device out_device err_device result }

    // Done: the words ask for a command, the input, or the text that the command makes, is valid, what the command
    // writes of its meaning was written, and nothing else.
    ensures completed { let source_device = device S.left S.faults source.old source.new in
        let out_device = device O.taken O.faults out.old out.new in
        let err_device = device E.taken E.faults err.old err.new in
        result ≡ Status.Done
        → (c : Command) × Asks (map string_bytes words.now) c × Completed c source_device out_device err_device }

    // Done by a recovery: the text that was written is valid under the same table, and means what the input means; of
    // JSON, in the form that the command names, exactly where that is not half filled.
    ensures recovers { let source_device = device S.left S.faults source.old source.new in
        let out_device = device O.taken O.faults out.old out.new in
        result ≡ Status.Done
        → (c : Command) × Asks (map string_bytes words.now) c × KeepsMeaning c source_device out_device }

    // With no fault counted, the status is the one planned for the words and the input, or out of memory.
    ensures completes { let source_device = device S.left S.faults source.old source.new in
        let out_device = device O.taken O.faults out.old out.new in
        let err_device = device E.taken E.faults err.old err.new in
        (bytes : List ℕ) (plan : Report) → S.left source.old ≡ Some bytes
        → IsPlan (map string_bytes words.now) bytes plan → NoneCounted source_device out_device err_device
        → (result ≡ plan.status) ⊎ (result ≡ Status.Memory) }

    // A sink that surely takes what is planned for it counts no fault; of the error output this asks for room for a
    // read fault's line where a read failed.
    ensures out_sure { (bytes : List ℕ) (plan : Report) → S.left source.old ≡ Some bytes
        → IsPlan (map string_bytes words.now) bytes plan → length plan.out ≤ O.sure out.old
        → O.faults out.new ≡ O.faults out.old }
    ensures err_sure { (bytes : List ℕ) (plan : Report) → S.left source.old ≡ Some bytes
        → IsPlan (map string_bytes words.now) bytes plan → length plan.err ≤ E.sure err.old
        → (Rose (S.faults source.old) (S.faults source.new) → length read_fault_report.err ≤ E.sure err.old)
        → E.faults err.new ≡ E.faults err.old }

    // No more of the source is taken than one byte past what an input may have, and no count of faults falls.
    ensures taken { TookAtMost (max_input + 1) (S.left source.old) (S.left source.new) }
    ensures source_later { S.faults source.old ≤ S.faults source.new }
    ensures out_later { O.faults out.old ≤ O.faults out.new }
    ensures err_later { E.faults err.old ≤ E.faults err.new }
{
    one_plan();
    canonical_texts_mean_the_same();
    canonical_texts_tell_meanings_apart();
    texts_of_json_mean_the_same();
    run_program::<Command, S, O, E>(alloc, words, source, out, err)
}
