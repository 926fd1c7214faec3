ghost use Rattle.std.specs.Prelude.{◌≡◌, ◌+◌, ◌≤◌, ◌⊎◌, ℕ, List, Some, IfOk, length, map};
ghost use Rattle.std.specs.String.{string_bytes};
ghost use Rattle.cedar_io.specs.Outside.{Rose};
ghost use Rattle.cedar_io.specs.Input.{TookAtMost, max_input};
ghost use Rattle.cedar_runs.specs.Reports.{Report, report_of, read_fault_report};
ghost use Rattle.cedar_runs.specs.Runs.{device, NoneCounted};
ghost use Rattle.schema_layout.specs.Plans.{Asks, Reads, IsLayoutAnswer, IsLayoutPlan, refused_report};
ghost use Rattle.schema_layout.specs.Runs.{IsLayoutRun, LaidOutWhole};
ghost use Rattle.schema_syntax_errors.specs.FaultTexts.{first_error_text};

use cedar_data::{Diagnostic, Text, around};
use cedar_io::{Sink, Source};
use cedar_runs::{Program, Reply, Status, run_program};
use laws_syntax::trees::one_error;
use schema_layout_pieces::laws::pieces_of_texts;
use schema_layout_texts::{LayoutError, laid_schemas_stay, layout};
use schema_syntax::tree_or_error;
use schema_syntax_errors::ParseErrors;
use std::alloc::{AllocError, Global};

const USAGE: &str = "usage: schema_layout layout\n";

/// The one command of the formatter: to lay out its input.
#[derive(Drop)]
pub struct LayOut;

// The reply where the text is no schema.
fn refused_reply(alloc: Global, errors: &ParseErrors) -> Result<Reply, AllocError>
    ensures { IfOk result (λ reply. report_of reply ≡ refused_report errors.now) }
{
    let text = errors.text(alloc)?;
    Ok(Reply {
        status: Status::Refused,
        out: Text::new(alloc),
        err: around(alloc, "error: ", &text, "\n")?,
    })
}

// The reply for a text.
fn text_reply(alloc: Global, text: &str) -> Result<Reply, AllocError>
    ensures { IfOk result (λ reply. IsLayoutAnswer text.now (report_of reply)) }
{
    match layout(alloc, text) {
        Ok(out) => Ok(Reply {
            status: Status::Done,
            out,
            err: Text::new(alloc),
        }),
        Err(LayoutError::Syntax(errors)) => refused_reply(alloc, &errors),
        Err(LayoutError::Memory) => Err(AllocError),
    }
}

impl Program for LayOut {
    ghost asks = { Asks };

    ghost reads = { Reads };

    ghost planned = { IsLayoutPlan };

    fn of_words(alloc: Global, words: &[String]) -> Result<Option<LayOut>, AllocError> {
        let [word] = words else {
            return Ok(None);
        };
        if word.as_str() == "layout" {
            return Ok(Some(LayOut));
        }
        Ok(None)
    }

    fn usage_reply(alloc: Global) -> Result<Reply, AllocError> {
        Reply::line(alloc, Status::Usage, USAGE)
    }

    fn own_reply(&self, alloc: Global) -> Result<Option<Reply>, AllocError> {
        Ok(None)
    }

    fn input_reply(&self, alloc: Global, bytes: &[u8]) -> Result<Reply, AllocError> {
        match str::from_utf8(bytes) {
            Ok(text) => text_reply(alloc, text),
            Err(_) => Reply::not_text(alloc),
        }
    }

    fn one_command() {}

    fn long_inputs() {}

    fn one_plan() {
        pieces_of_texts();
        one_error();
        tree_or_error();
    }
}

/// Runs the formatter: reads the source where the one word is `layout`, and writes the text laid out, or why there is
/// none. `words` are those after the program's name. Nothing is written before all memory is taken.
pub fn run_layout<S: Source, O: Sink, E: Sink>(
    alloc: Global,
    words: &[String],
    source: &mut S,
    out: &mut O,
    err: &mut E,
) -> Status
    // Done: the output took the input laid out, a schema with the same tokens and comments, which stays as it is when
    // it is laid out again.
    ensures done { let source_device = device S.left S.faults source.old source.new in
        let out_device = device O.taken O.faults out.old out.new in
        let err_device = device E.taken E.faults err.old err.new in
        result ≡ Status.Done → LaidOutWhole source_device out_device err_device }

    // How the run ended, by its cause.
    ensures run { let source_device = device S.left S.faults source.old source.new in
        let out_device = device O.taken O.faults out.old out.new in
        let err_device = device E.taken E.faults err.old err.new in
        IsLayoutRun (map string_bytes words.now) source_device out_device err_device result }

    // With no fault counted, the status is the one planned for the words and the input, or out of memory.
    ensures completes { let source_device = device S.left S.faults source.old source.new in
        let out_device = device O.taken O.faults out.old out.new in
        let err_device = device E.taken E.faults err.old err.new in
        (bytes : List ℕ) (plan : Report) → S.left source.old ≡ Some bytes
        → IsLayoutPlan (map string_bytes words.now) bytes plan → NoneCounted source_device out_device err_device
        → (result ≡ plan.status) ⊎ (result ≡ Status.Memory) }

    // A sink that surely takes what is planned for it counts no fault; of the error output this asks for room for a
    // read fault's line where a read failed.
    ensures out_sure { (bytes : List ℕ) (plan : Report) → S.left source.old ≡ Some bytes
        → IsLayoutPlan (map string_bytes words.now) bytes plan → length plan.out ≤ O.sure out.old
        → O.faults out.new ≡ O.faults out.old }
    ensures err_sure { (bytes : List ℕ) (plan : Report) → S.left source.old ≡ Some bytes
        → IsLayoutPlan (map string_bytes words.now) bytes plan → length plan.err ≤ E.sure err.old
        → (Rose (S.faults source.old) (S.faults source.new) → length read_fault_report.err ≤ E.sure err.old)
        → E.faults err.new ≡ E.faults err.old }

    // No more of the source is taken than one byte past what an input may have, and no count of faults falls.
    ensures taken { TookAtMost (max_input + 1) (S.left source.old) (S.left source.new) }
    ensures source_later { S.faults source.old ≤ S.faults source.new }
    ensures out_later { O.faults out.old ≤ O.faults out.new }
    ensures err_later { E.faults err.old ≤ E.faults err.new }
{
    laid_schemas_stay();
    run_program::<LayOut, S, O, E>(alloc, words, source, out, err)
}
