// Runs of programs over devices in memory. Each line of a table is a run, as its head says; each character of the input
// is one byte.

use crate::assist_table::assist_lines;
use crate::layout_table::layout_lines;
use crate::registry_table::registry_lines;
use cedar_io::{MemorySink, SteadySource};
use cedar_runs::{Program, run_program};
use schema_assist::AssistAt;
use schema_layout::LayOut;
use schema_registry::Register;
use schema_tests_lines::with_line_ends;
use std::alloc::{AllocError, Global};

// How much room the outputs have.
const AMPLE: usize = 4096;

// The words as strings.
fn strings(alloc: Global, words: &str) -> Result<Vec<String>, AllocError> {
    let mut strings = Vec::new(alloc);
    for word in words.split_whitespace() {
        strings.push(String::from_str(alloc, word)?)?;
    }
    Ok(strings)
}

// The bytes with the numbers of these characters.
fn bytes_of(alloc: Global, text: &str) -> Result<Vec<u8>, AllocError> {
    let mut bytes = Vec::new(alloc);
    for letter in text.chars() {
        bytes.push((u32::from(letter) % 256) as u8)?;
    }
    Ok(bytes)
}

// Does a run on this input end with this code, and with this on the two outputs?
fn ends<P: Program>(alloc: Global, words: &str, input: &str, code: u8, written: [&str; 2]) -> bool {
    let (Ok(words), Ok(bytes)) = (strings(alloc, words), bytes_of(alloc, input)) else {
        return false;
    };
    let mut source = SteadySource::new(bytes);
    let Ok(mut out) = MemorySink::with_room(alloc, AMPLE, Vec::new(alloc)) else {
        return false;
    };
    let Ok(mut err) = MemorySink::with_room(alloc, AMPLE, Vec::new(alloc)) else {
        return false;
    };
    let status = run_program::<P, _, _, _>(alloc, &words, &mut source, &mut out, &mut err);
    status.code() == code
        && out.as_slice() == written[0].as_bytes()
        && err.as_slice() == written[1].as_bytes()
}

// The front of the line and what stands behind the sign.
fn field(line: &str) -> (&str, &str) {
    line.split_once('‖').unwrap_or(("", ""))
}

// Does the run of the line end as it says?
fn agrees<P: Program>(alloc: Global, line: &str) -> bool {
    let Ok(line) = with_line_ends(alloc, line) else {
        return false;
    };
    let (words, line) = field(line.as_str());
    let (code, line) = field(line);
    let (out, line) = field(line);
    let (err, input) = field(line);
    match code.parse::<u8>() {
        Ok(code) => ends::<P>(alloc, words, input, code, [out, err]),
        Err(_) => false,
    }
}

// Do all runs of the table end as it says?
fn all_agree<P: Program>(alloc: Global, lines: &str) -> bool {
    lines.lines().all(|line| agrees::<P>(alloc, line))
}

#[test]
fn programs_answer_as_the_tables_say(rt: HostRuntime) {
    let alloc = rt.alloc();
    assert!(rt; all_agree::<AssistAt>(alloc, assist_lines()), "completion");
    assert!(rt; all_agree::<LayOut>(alloc, layout_lines()), "the formatter");
    assert!(rt;
        all_agree::<Register>(alloc, registry_lines()),
        "the registry"
    );
}
