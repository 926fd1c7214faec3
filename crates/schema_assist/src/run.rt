ghost use Rattle.std.specs.Prelude.{◌≡◌, ◌≢◌, ◌+◌, ◌≤◌, ◌⊎◌, ℕ, List, Some, IfOk, MatchOption, length, map};
ghost use Rattle.std.specs.String.{string_bytes};
ghost use Rattle.cedar_io.specs.Outside.{Rose};
ghost use Rattle.cedar_io.specs.Input.{TookAtMost, max_input};
ghost use Rattle.cedar_runs.specs.Reports.{Report, report_of, read_fault_report};
ghost use Rattle.cedar_runs.specs.Runs.{device, NoneCounted};
ghost use Rattle.cedar_schema_core.specs.Commands.{IsStandard};
ghost use Rattle.schema_assist.specs.Plans.{Asks, Reads, no_names, IsKnownFrom, IsAssistAnswer, IsAssistPlan};
ghost use Rattle.schema_assist.specs.Plans.{fault_report, done_report, IsPlaceReport};
ghost use Rattle.schema_assist.specs.Runs.{IsAssistRun, AssistedWhole};
ghost use Rattle.schema_assist.specs.Words.{IsPlaceWord};

use crate::assistance::{Assistance, assist};
use crate::laws::{assisted_or_refused, one_assistance, one_refusal};
use crate::lines::assistance_lines;
use crate::words::place_of;
use cedar_data::{Diagnostic, Map, Text, around};
use cedar_identifiers::RawName;
use cedar_io::{MAX_INPUT, Sink, Source};
use cedar_names::ExtensionTable;
use cedar_runs::{Program, Reply, Status, run_program};
use cedar_schema_core::laws::refused_or_translated;
use cedar_schema_core::{one_table, one_translation};
use schema_assist_words::AssistError;
use schema_convert::{CedarSchemaParseErrors, parse_cedar_schema_fragment};
use schema_json::Fragment;
use schema_syntax_errors::ParseError;
use std::alloc::{AllocError, Global};

const USAGE: &str = "usage: schema_assist at PLACE\n";

const NO_PLACE: &str = "error: no such place\n";

/// The one command of the program: to say what may stand at a place of its input.
#[derive(Drop)]
pub struct AssistAt {
    /// The place, a byte offset.
    pub place: usize,
    /// The extension types that are known.
    pub table: ExtensionTable,
}

// What is known where a text has a fault: no names.
fn known_without(
    alloc: Global,
    errors: &CedarSchemaParseErrors,
) -> Result<Fragment<RawName>, AllocError>
    ensures { IfOk result (λ known. (errors.now ≢ CedarSchemaParseErrors.Memory) × (known ≡ no_names)) }
{
    match errors {
        CedarSchemaParseErrors::Memory => Err(AllocError),
        CedarSchemaParseErrors::SyntaxError(_) | CedarSchemaParseErrors::JsonError(_) => {
            Ok(Fragment(Map::new(alloc)))
        }
    }
}

// The names that are known from a text: none where it has a fault.
fn known_from(
    alloc: Global,
    text: &str,
    table: &ExtensionTable,
) -> Result<Fragment<RawName>, AllocError>
    ensures { IfOk result (IsKnownFrom text.now table.now) }
{
    match parse_cedar_schema_fragment(alloc, text, table) {
        Ok((known, _)) => Ok(known),
        Err(errors) => known_without(alloc, &errors),
    }
}

// The reply of what may stand at a place.
fn done_reply(alloc: Global, assistance: &Assistance) -> Result<Reply, AllocError>
    ensures { IfOk result (λ reply. report_of reply ≡ done_report assistance.now) }
{
    Ok(Reply {
        status: Status::Done,
        out: assistance_lines(alloc, assistance)?,
        err: Text::new(alloc),
    })
}

// The reply where the text before the place has a fault.
fn fault_reply(alloc: Global, error: &ParseError) -> Result<Reply, AllocError>
    ensures { IfOk result (λ reply. report_of reply ≡ fault_report error.now) }
{
    let text = error.text(alloc)?;
    Ok(Reply {
        status: Status::Refused,
        out: Text::new(alloc),
        err: around(alloc, "error: ", &text, "\n")?,
    })
}

// The reply for a text.
fn text_reply(
    alloc: Global,
    place: usize,
    table: &ExtensionTable,
    text: &str,
) -> Result<Reply, AllocError>
    ensures { IfOk result (λ reply. IsAssistAnswer place table.now text.now (report_of reply)) }
{
    let known = known_from(alloc, text, table)?;
    match assist(alloc, text, place, &known, table) {
        Ok(assistance) => done_reply(alloc, &assistance),
        Err(AssistError::BadPlace) => Reply::line(alloc, Status::Refused, NO_PLACE),
        Err(AssistError::Syntax(error)) => fault_reply(alloc, &error),
        Err(AssistError::Memory) => Err(AllocError),
    }
}

/// What may stand at a place of an input, a byte offset, as the program says it: with the names known from the input
/// itself, and all extension types that Cedar has. It errs when out of memory.
pub fn reply_at(alloc: Global, place: usize, bytes: &[u8]) -> Result<Reply, AllocError>
    ensures { IfOk result (λ reply. IsPlaceReport place bytes.now (report_of reply)) }
{
    let table = ExtensionTable::all_available(alloc)?;
    if bytes.len() > MAX_INPUT {
        return Reply::too_long(alloc);
    }
    match str::from_utf8(bytes) {
        Ok(text) => text_reply(alloc, place, &table, text),
        Err(_) => Reply::not_text(alloc),
    }
}

// The command for the place that the word says.
fn command_at(alloc: Global, word: &str) -> Result<Option<AssistAt>, AllocError>
    ensures { IfOk result (λ found. MatchOption found ((place : ℕ) → IsPlaceWord word.now place → ⊥)
        (λ c. IsPlaceWord word.now c.place × IsStandard c.table)) }
{
    match place_of(word) {
        Some(place) => {
            let table = ExtensionTable::all_available(alloc)?;
            Ok(Some(AssistAt { place, table }))
        }
        None => Ok(None),
    }
}

impl Program for AssistAt {
    ghost asks = { Asks };

    ghost reads = { Reads };

    ghost planned = { IsAssistPlan };

    fn of_words(alloc: Global, words: &[String]) -> Result<Option<AssistAt>, AllocError> {
        let [first, word] = words else {
            return Ok(None);
        };
        if first.as_str() == "at" {
            return command_at(alloc, word.as_str());
        }
        Ok(None)
    }

    fn usage_reply(alloc: Global) -> Result<Reply, AllocError> {
        Reply::line(alloc, Status::Usage, USAGE)
    }

    fn own_reply(&self, alloc: Global) -> Result<Option<Reply>, AllocError> {
        Ok(None)
    }

    fn input_reply(&self, alloc: Global, bytes: &[u8]) -> Result<Reply, AllocError> {
        match str::from_utf8(bytes) {
            Ok(text) => text_reply(alloc, self.place, &self.table, text),
            Err(_) => Reply::not_text(alloc),
        }
    }

    fn one_command() {
        one_table();
    }

    fn long_inputs() {}

    fn one_plan() {
        one_table();
        one_translation();
        refused_or_translated();
        one_assistance();
        assisted_or_refused();
        one_refusal();
    }
}

/// Runs the program: reads the source where the words ask for it, and writes a line for each kind and each name that
/// may stand at the place, or why nothing is said of it. `words` are those after the program's name. Nothing is written
/// before all memory is taken.
pub fn run_assist<S: Source, O: Sink, E: Sink>(
    alloc: Global,
    words: &[String],
    source: &mut S,
    out: &mut O,
    err: &mut E,
) -> Status
    // Done: the output took what may stand at the place of the input, with the names known from the input: all of it,
    // and nothing else.
    ensures done { let source_device = device S.left S.faults source.old source.new in
        let out_device = device O.taken O.faults out.old out.new in
        let err_device = device E.taken E.faults err.old err.new in
        result ≡ Status.Done → AssistedWhole (map string_bytes words.now) source_device out_device err_device }

    // How the run ended, by its cause.
    ensures run { let source_device = device S.left S.faults source.old source.new in
        let out_device = device O.taken O.faults out.old out.new in
        let err_device = device E.taken E.faults err.old err.new in
        IsAssistRun (map string_bytes words.now) source_device out_device err_device result }

    // With no fault counted, the status is the one planned for the words and the input, or out of memory.
    ensures completes { let source_device = device S.left S.faults source.old source.new in
        let out_device = device O.taken O.faults out.old out.new in
        let err_device = device E.taken E.faults err.old err.new in
        (bytes : List ℕ) (plan : Report) → S.left source.old ≡ Some bytes
        → IsAssistPlan (map string_bytes words.now) bytes plan → NoneCounted source_device out_device err_device
        → (result ≡ plan.status) ⊎ (result ≡ Status.Memory) }

    // A sink that surely takes what is planned for it counts no fault; of the error output this asks for room for a
    // read fault's line where a read failed.
    ensures out_sure { (bytes : List ℕ) (plan : Report) → S.left source.old ≡ Some bytes
        → IsAssistPlan (map string_bytes words.now) bytes plan → length plan.out ≤ O.sure out.old
        → O.faults out.new ≡ O.faults out.old }
    ensures err_sure { (bytes : List ℕ) (plan : Report) → S.left source.old ≡ Some bytes
        → IsAssistPlan (map string_bytes words.now) bytes plan → length plan.err ≤ E.sure err.old
        → (Rose (S.faults source.old) (S.faults source.new) → length read_fault_report.err ≤ E.sure err.old)
        → E.faults err.new ≡ E.faults err.old }

    // No more of the source is taken than one byte past what an input may have, and no count of faults falls.
    ensures taken { TookAtMost (max_input + 1) (S.left source.old) (S.left source.new) }
    ensures source_later { S.faults source.old ≤ S.faults source.new }
    ensures out_later { O.faults out.old ≤ O.faults out.new }
    ensures err_later { E.faults err.old ≤ E.faults err.new }
{
    run_program::<AssistAt, S, O, E>(alloc, words, source, out, err)
}
