// Runs over devices in memory.

use crate::json_table::json_lines;
use crate::table::{recovered_lines, run_lines};
use crate::told_table::told_lines;
use crate::valid_table::valid_lines;
use crate::worked_table::worked_lines;
use cedar_io::{MemorySink, MemorySource, Source, SteadySource};
use cedar_schema_core::run_tool;
use schema_tests_lines::{answer_and_text, with_line_ends};
use std::alloc::{AllocError, Global};

// The words as strings.
fn strings(alloc: Global, words: &str) -> Result<Vec<String>, AllocError> {
    let mut strings = Vec::new(alloc);
    for word in words.split_whitespace() {
        strings.push(String::from_str(alloc, word)?)?;
    }
    Ok(strings)
}

// How much room the outputs have in most runs.
pub(crate) const AMPLE: usize = 4096;

// Does a run end with this code, with this on the two outputs, which have room for so much?
pub(crate) fn ends<S: Source>(
    alloc: Global,
    words: &str,
    source: &mut S,
    room: [usize; 2],
    code: u8,
    written: [&str; 2],
) -> bool {
    let Ok(words) = strings(alloc, words) else {
        return false;
    };
    let Ok(mut out) = MemorySink::with_room(alloc, room[0], Vec::new(alloc)) else {
        return false;
    };
    let Ok(mut err) = MemorySink::with_room(alloc, room[1], Vec::new(alloc)) else {
        return false;
    };
    let status = run_tool(alloc, &words, source, &mut out, &mut err);
    status.code() == code
        && out.as_slice() == written[0].as_bytes()
        && err.as_slice() == written[1].as_bytes()
}

// Does a run on these bytes end so?
fn ends_on(alloc: Global, words: &str, bytes: &[u8], code: u8, written: [&str; 2]) -> bool {
    match bytes.to_vec(alloc) {
        Ok(bytes) => {
            let mut source = SteadySource::new(bytes);
            ends(alloc, words, &mut source, [AMPLE; 2], code, written)
        }
        Err(_) => false,
    }
}

// Does a run end as the line says of its text?
fn agrees(alloc: Global, line: &str) -> bool {
    let Ok(line) = with_line_ends(alloc, line) else {
        return false;
    };
    let (answer, text) = answer_and_text(line.as_str());
    if answer.starts_with("error: ") {
        ends_on(alloc, "recover", text.as_bytes(), 1, ["", answer])
    } else {
        ends_on(alloc, "recover", text.as_bytes(), 0, [answer, ""])
    }
}

#[test]
fn texts_are_recovered(rt: HostRuntime) {
    for line in recovered_lines().lines() {
        assert!(rt; agrees(rt.alloc(), line), "{line}");
    }
}

#[test]
fn refusals_are_told(rt: HostRuntime) {
    for line in told_lines().lines() {
        assert!(rt; agrees(rt.alloc(), line), "{line}");
    }
}

// Does a run print what the line says of its text, and print that again where it is given it?
fn reads_back(alloc: Global, line: &str) -> bool {
    let Ok(line) = with_line_ends(alloc, line) else {
        return false;
    };
    let (answer, text) = answer_and_text(line.as_str());
    ends_on(alloc, "recover", text.as_bytes(), 0, [answer, ""])
        && ends_on(alloc, "recover", answer.as_bytes(), 0, [answer, ""])
}

#[test]
fn valid_texts_are_recovered_and_read_back(rt: HostRuntime) {
    for line in valid_lines().lines() {
        assert!(rt; reads_back(rt.alloc(), line), "{line}");
    }
}

// Does the run of the line end as it says?
fn run_agrees(alloc: Global, line: &str) -> bool {
    let Ok(line) = with_line_ends(alloc, line) else {
        return false;
    };
    let (words, line) = answer_and_text(line.as_str());
    let (code, line) = answer_and_text(line);
    let (out, line) = answer_and_text(line);
    let (err, text) = answer_and_text(line);
    match code.parse::<u8>() {
        Ok(code) => ends_on(alloc, words, text.as_bytes(), code, [out, err]),
        Err(_) => false,
    }
}

#[test]
fn commands_are_answered(rt: HostRuntime) {
    for line in run_lines().lines() {
        assert!(rt; run_agrees(rt.alloc(), line), "{line}");
    }
}

#[test]
fn worked_rows_are_answered(rt: HostRuntime) {
    for line in worked_lines().lines() {
        assert!(rt; run_agrees(rt.alloc(), line), "{line}");
    }
}

#[test]
fn json_is_written_and_read(rt: HostRuntime) {
    for line in json_lines().lines() {
        assert!(rt; run_agrees(rt.alloc(), line), "{line}");
    }
}

const TOO_LONG: &str = "error: the input is longer than 16777216 bytes\n";

// Is an input of so many blanks answered so?
fn blanks_end(alloc: Global, count: usize, code: u8, err: &str) -> bool {
    match vec![in alloc; b' '; count] {
        Ok(blanks) => ends_on(alloc, "recover", &blanks, code, ["", err]),
        Err(_) => false,
    }
}

#[test]
fn inputs_that_are_no_text_are_told(rt: HostRuntime) {
    let alloc = rt.alloc();
    assert!(rt;
        ends_on(
            alloc,
            "recover",
            b"\xff",
            5,
            ["", "error: the input is not UTF-8\n"]
        )
    );
    assert!(rt; blanks_end(alloc, 16_777_217, 6, TOO_LONG));
}

// The source of the text, which fails at the call with this number.
fn failing_source(alloc: Global, text: &str, call: u64) -> Result<MemorySource, AllocError> {
    let bytes = text.as_bytes().to_vec(alloc)?;
    let mut failing = Vec::new(alloc);
    failing.push(call)?;
    Ok(MemorySource::new(bytes, failing))
}

// Does a run on the text, with a read that fails or with little room, end so?
pub(crate) fn ends_badly(
    alloc: Global,
    text: &str,
    call: u64,
    room: [usize; 2],
    code: u8,
    written: [&str; 2],
) -> bool {
    match failing_source(alloc, text, call) {
        Ok(mut source) => ends(alloc, "recover", &mut source, room, code, written),
        Err(_) => false,
    }
}

#[test]
fn failures_of_devices_are_told(rt: HostRuntime) {
    let alloc = rt.alloc();
    assert!(rt;
        ends_badly(
            alloc,
            "entity A;",
            1,
            [AMPLE; 2],
            3,
            ["", "error: reading failed\n"]
        )
    );
    assert!(rt;
        ends_badly(
            alloc,
            "entity A;",
            2,
            [AMPLE; 2],
            3,
            ["", "error: reading failed\n"]
        )
    );
    assert!(rt; ends_badly(alloc, "entity A;", 3, [3, AMPLE], 4, ["ent", ""]));
    assert!(rt; ends_badly(alloc, "entity A;", 3, [10, 0], 0, ["entity A;\n", ""]));
    assert!(rt; ends_badly(alloc, "entity A", 3, [AMPLE, 3], 4, ["", "err"]));
    assert!(rt;
        ends_badly(
            alloc,
            "entity Long;",
            3,
            [AMPLE, 8],
            4,
            ["entity Long;\n", "warning:"]
        )
    );
    assert!(rt; ends_badly(alloc, "entity Long;", 3, [5, AMPLE], 4, ["entit", ""]));
}
