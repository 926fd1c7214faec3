ghost use Rattle.std.specs.Prelude.{◌≡◌, ◌+◌, ◌≤◌, ◌⊎◌, ℕ, List, [], ◌∷◌, Some, None, IfOk, IsUtf8, length, map};
ghost use Rattle.std.specs.Prelude.{MatchOption};
ghost use Rattle.std.specs.String.{string_bytes};
ghost use Rattle.cedar_io.specs.Outside.{Rose};
ghost use Rattle.cedar_io.specs.Input.{TookAtMost, max_input};
ghost use Rattle.cedar_runs.specs.Reports.{Report, report_of, read_fault_report};
ghost use Rattle.cedar_runs.specs.Runs.{device, NoneCounted};
ghost use Rattle.cedar_names.specs.declared.extension_table.ExtensionTable.{ExtensionTable};
ghost use Rattle.cedar_messages.specs.Messages.{AreMessages};
ghost use Rattle.schema_inclusion_values.specs.Seen.{schema_value};
ghost use Rattle.schema_inclusion_check.specs.Subjects.{subject};
ghost use Rattle.schema_inclusion.specs.Answers.{subject_text};
ghost use Rattle.schema_inclusion.specs.Plans.{Asks, Reads, AreTwoTexts, refused_report, done_report, IsTextsReport};
ghost use Rattle.schema_inclusion.specs.Plans.{IsInclusionReport, IsInclusionPlan, IsInclusionRun, ComparedBoth};

use cedar_data::{Diagnostic, Text, around, message};
use cedar_io::{Sink, Source};
use cedar_messages::{first_message, one_list_of_messages};
use cedar_names::ExtensionTable;
use cedar_runs::{Program, Reply, Status, run_program};
use cedar_schema_core::{one_table, table_of_words};
use laws_inclusion::laws::{
    one_meaning_of_a_text, one_refusal_of_a_text, refused_texts_mean_nothing,
};
use schema_build::CedarSchemaError;
use schema_inclusion_shown::entity_text;
use schema_inclusion_texts::{Inclusion, InclusionError, check_inclusion};
use schema_inclusion_values::SchemaValue;
use std::alloc::{AllocError, Global};

const USAGE: &str = "usage: schema_inclusion include|include-with [NAME..]\n";

const TWO_TEXTS: &str = "error: two schema texts are needed\n";

/// The one command: to compare two schemas under a table of extension types.
#[derive(Drop)]
pub struct Include {
    pub table: ExtensionTable,
}

// The two messages that the bytes are, where they are two.
fn two_messages<'a>(bytes: &'a [u8]) -> Option<(&'a [u8], &'a [u8])>
    ensures { MatchOption result ((old new : List ℕ) → AreMessages bytes.now (old ∷ new ∷ []) → ⊥)
        (λ r. AreMessages bytes.now (r.0.now ∷ r.1.now ∷ [])) }
{
    let Some((old, rest)) = first_message(bytes) else {
        return None;
    };
    let Some((new, rest)) = first_message(rest) else {
        return None;
    };
    if rest.is_empty() {
        Some((old, new))
    } else {
        None
    }
}

// The two texts that the bytes are, where they are two messages that are texts.
fn two_texts<'a>(bytes: &'a [u8]) -> Option<(&'a str, &'a str)>
    ensures { MatchOption result ((old new : List ℕ) → AreTwoTexts bytes.now old new → ⊥)
        (λ r. AreTwoTexts bytes.now r.0.now r.1.now) }
{
    one_list_of_messages();
    let Some((old, new)) = two_messages(bytes) else {
        return None;
    };
    let Ok(old) = str::from_utf8(old) else {
        return None;
    };
    let Ok(new) = str::from_utf8(new) else {
        return None;
    };
    Some((old, new))
}

// What a value is about: the kind, and the entity or the action.
fn subject_text(alloc: Global, value: &SchemaValue) -> Result<Text, AllocError>
    ensures { IfOk result (λ text. text ≡ subject_text (subject (schema_value value.now))) }
{
    match value {
        SchemaValue::Entity { ty, id, .. } => {
            let entity = entity_text(alloc, ty, id)?;
            around(alloc, "entity ", &entity, "")
        }
        SchemaValue::Request { action, .. } => {
            let action = entity_text(alloc, &action.ty, &action.eid.0)?;
            around(alloc, "request ", &action, "")
        }
        SchemaValue::ActionIn { action, .. } => {
            let action = entity_text(alloc, &action.ty, &action.eid.0)?;
            around(alloc, "action ", &action, "")
        }
    }
}

// The reply where the new schema admits each value.
fn included_reply(alloc: Global) -> Result<Reply, AllocError>
    ensures { IfOk result (λ reply. report_of reply ≡ done_report None) }
{
    Ok(Reply {
        status: Status::Done,
        out: message(alloc, "included\n")?,
        err: Text::new(alloc),
    })
}

// The reply where the new schema does not admit a value.
fn lost_reply(alloc: Global, value: &SchemaValue) -> Result<Reply, AllocError>
    ensures { IfOk result (λ reply. report_of reply ≡ done_report (Some (subject (schema_value value.now)))) }
{
    let subject = subject_text(alloc, value)?;
    Ok(Reply {
        status: Status::Done,
        out: around(alloc, "not included: ", &subject, "\n")?,
        err: Text::new(alloc),
    })
}

// The reply where a text is no schema.
fn refused_reply(alloc: Global, error: &CedarSchemaError) -> Result<Reply, AllocError>
    ensures { IfOk result (λ reply. report_of reply ≡ refused_report error.now) }
{
    let text = error.text(alloc)?;
    Ok(Reply {
        status: Status::Refused,
        out: Text::new(alloc),
        err: around(alloc, "error: ", &text, "\n")?,
    })
}

/// The reply to two texts: `included`, or what the first value is about that the old one admits and the new one does
/// not; or why one of them is no schema. It errs when out of memory.
pub fn texts_reply(
    alloc: Global,
    table: &ExtensionTable,
    old: &str,
    new: &str,
) -> Result<Reply, AllocError>
    ensures { IfOk result (λ reply. IsTextsReport table.now old.now new.now (report_of reply)) }
{
    match check_inclusion(alloc, old, new, table) {
        Ok(Inclusion::Yes) => included_reply(alloc),
        Ok(Inclusion::No(value)) => lost_reply(alloc, &value),
        Err(InclusionError::Old(error)) => refused_reply(alloc, &error),
        Err(InclusionError::New(error)) => refused_reply(alloc, &error),
        Err(InclusionError::Memory) => Err(AllocError),
    }
}

// The reply to a whole input.
fn answer(alloc: Global, table: &ExtensionTable, bytes: &[u8]) -> Result<Reply, AllocError>
    requires { length bytes.now ≤ max_input }
    ensures { IfOk result (λ reply. IsInclusionReport table.now bytes.now (report_of reply)) }
{
    match two_texts(bytes) {
        Some((old, new)) => texts_reply(alloc, table, old, new),
        None => Reply::line(alloc, Status::Refused, TWO_TEXTS),
    }
}

impl Program for Include {
    ghost asks = { Asks };

    ghost reads = { Reads };

    ghost planned = { IsInclusionPlan };

    fn of_words(alloc: Global, words: &[String]) -> Result<Option<Include>, AllocError> {
        match table_of_words(alloc, words, "include", "include-with")? {
            Some(table) => Ok(Some(Include { table })),
            None => Ok(None),
        }
    }

    fn usage_reply(alloc: Global) -> Result<Reply, AllocError> {
        Reply::line(alloc, Status::Usage, USAGE)
    }

    fn own_reply(&self, alloc: Global) -> Result<Option<Reply>, AllocError> {
        Ok(None)
    }

    fn input_reply(&self, alloc: Global, bytes: &[u8]) -> Result<Reply, AllocError> {
        answer(alloc, &self.table, bytes)
    }

    fn one_command() {
        one_table();
    }

    fn long_inputs() {}

    fn one_plan() {
        one_table();
        one_list_of_messages();
        one_meaning_of_a_text();
        one_refusal_of_a_text();
        refused_texts_mean_nothing();
    }
}

/// Runs the comparison: reads two messages where the words ask for it, the old schema's text and the new one's, and
/// writes whether the new schema admits all that the old one does, or what the first value is about that it does not
/// admit. `words` are those after the program's name. Nothing is written before all memory is taken.
pub fn run_inclusion<S: Source, O: Sink, E: Sink>(
    alloc: Global,
    words: &[String],
    source: &mut S,
    out: &mut O,
    err: &mut E,
) -> Status
    // Done: the input was two texts, and the output took how what they admit compares.
    ensures done { let source_device = device S.left S.faults source.old source.new in
        let out_device = device O.taken O.faults out.old out.new in
        let err_device = device E.taken E.faults err.old err.new in
        result ≡ Status.Done → ComparedBoth (map string_bytes words.now) source_device out_device err_device }

    // How the run ended, by its cause.
    ensures run { let source_device = device S.left S.faults source.old source.new in
        let out_device = device O.taken O.faults out.old out.new in
        let err_device = device E.taken E.faults err.old err.new in
        IsInclusionRun (map string_bytes words.now) source_device out_device err_device result }

    // With no fault counted, the status is the one planned for the words and the input, or out of memory.
    ensures completes { let source_device = device S.left S.faults source.old source.new in
        let out_device = device O.taken O.faults out.old out.new in
        let err_device = device E.taken E.faults err.old err.new in
        (bytes : List ℕ) (plan : Report) → S.left source.old ≡ Some bytes
        → IsInclusionPlan (map string_bytes words.now) bytes plan → NoneCounted source_device out_device err_device
        → (result ≡ plan.status) ⊎ (result ≡ Status.Memory) }

    // A sink that surely takes what is planned for it counts no fault; of the error output this asks for room for a
    // read fault's line where a read failed.
    ensures out_sure { (bytes : List ℕ) (plan : Report) → S.left source.old ≡ Some bytes
        → IsInclusionPlan (map string_bytes words.now) bytes plan → length plan.out ≤ O.sure out.old
        → O.faults out.new ≡ O.faults out.old }
    ensures err_sure { (bytes : List ℕ) (plan : Report) → S.left source.old ≡ Some bytes
        → IsInclusionPlan (map string_bytes words.now) bytes plan → length plan.err ≤ E.sure err.old
        → (Rose (S.faults source.old) (S.faults source.new) → length read_fault_report.err ≤ E.sure err.old)
        → E.faults err.new ≡ E.faults err.old }

    // No more of the source is taken than one byte past what an input may have, and no count of faults falls.
    ensures taken { TookAtMost (max_input + 1) (S.left source.old) (S.left source.new) }
    ensures source_later { S.faults source.old ≤ S.faults source.new }
    ensures out_later { O.faults out.old ≤ O.faults out.new }
    ensures err_later { E.faults err.old ≤ E.faults err.new }
{
    run_program::<Include, S, O, E>(alloc, words, source, out, err)
}
