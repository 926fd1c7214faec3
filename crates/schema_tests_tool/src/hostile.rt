// Devices that fail at each of their calls, outputs that are full at each byte, and texts that a stranger may send.

use crate::runs::{AMPLE, ends, ends_badly};
use crate::worked_table::photo_text;
use cedar_io::{MemorySink, MemorySource, SteadySource};
use cedar_schema_core::run_tool;
use std::alloc::{AllocError, Global};

// Is the read with this number told, of the four that an input of 8,193 bytes takes?
fn is_read_told(alloc: Global, call: u64) -> bool {
    let Ok(blanks) = vec![in alloc; b' '; 8193] else {
        return false;
    };
    let mut failing = Vec::new(alloc);
    let Ok(()) = failing.push(call) else {
        return false;
    };
    let mut source = MemorySource::new(blanks, failing);
    let err = "error: reading failed\n";
    ends(alloc, "recover", &mut source, [AMPLE; 2], 3, ["", err])
}

#[test]
fn each_read_that_fails_is_told(rt: HostRuntime) {
    for call in 1..5 {
        assert!(rt; is_read_told(rt.alloc(), call), "{call}");
    }
}

// Does an output with so much room take the beginning of the text, and no more?
fn is_taken_to(alloc: Global, room: usize) -> bool {
    let text = "entity A in [A];\n";
    match text.get(..room) {
        Some(front) => {
            let code = if room < text.len() { 4 } else { 0 };
            ends_badly(alloc, "entity A in A;", 9, [room, AMPLE], code, [front, ""])
        }
        None => false,
    }
}

#[test]
fn an_output_is_filled_to_its_end(rt: HostRuntime) {
    for room in 0..18 {
        assert!(rt; is_taken_to(rt.alloc(), room), "{room}");
    }
}

#[test]
fn an_error_output_that_fails_is_told(rt: HostRuntime) {
    let alloc = rt.alloc();
    let text = "entity String; entity A { x: String, y: __cedar::String };";
    let out = "entity A = {\n  x: String,\n  y: __cedar::String,\n};\n\nentity String;\n";
    assert!(rt; ends_badly(alloc, text, 9, [AMPLE, 0], 4, [out, ""]));
    assert!(rt; ends_badly(alloc, "entity A, A;", 9, [AMPLE, 3], 4, ["", "err"]));
}

// The parts, one behind the other.
fn joined(alloc: Global, parts: [&str; 5]) -> Result<String, AllocError> {
    let mut text = String::new(alloc);
    for part in parts {
        text.push_str(part)?;
    }
    Ok(text)
}

// Does a run on the text of the first parts write that of the others?
fn is_written(alloc: Global, parts: [&str; 5], written: [&str; 5]) -> bool {
    let (Ok(text), Ok(out)) = (joined(alloc, parts), joined(alloc, written)) else {
        return false;
    };
    ends_badly(alloc, text.as_str(), 9, [AMPLE; 2], 0, [out.as_str(), ""])
}

#[test]
fn deep_sets_are_written(rt: HostRuntime) {
    let alloc = rt.alloc();
    let (Ok(open), Ok(close)) = ("Set<".repeat(alloc, 500), ">".repeat(alloc, 500)) else {
        assert!(rt; false);
        return;
    };
    let (open, close) = (open.as_str(), close.as_str());
    let nothing = [""; 5];
    assert!(rt; is_written(alloc, ["type T = ", open, "Long", close, ";"], nothing));
    let text = ["entity A { x: ", open, "Long", close, " };"];
    let out = [
        "entity A = {\n  x: ",
        open,
        "__cedar::Long",
        close,
        ",\n};\n",
    ];
    assert!(rt; is_written(alloc, text, out));
}

// Ten common types, each with two of the one before it, and an entity type with one of the last.
fn tower() -> &'static str {
    "type T0 = Long; type T1 = {a: T0, b: T0}; type T2 = {a: T1, b: T1}; type T3 = {a: T2, b: T2};
type T4 = {a: T3, b: T3}; type T5 = {a: T4, b: T4}; type T6 = {a: T5, b: T5}; type T7 = {a: T6, b: T6};
type T8 = {a: T7, b: T7}; type T9 = {a: T8, b: T8}; type T10 = {a: T9, b: T9}; entity E {x: T10};"
}

// The code that recovering the text ends with, as the output takes what is written.
fn recover_into(alloc: Global, text: &str, out: &mut MemorySink) -> Result<u8, AllocError> {
    let mut err = MemorySink::with_room(alloc, AMPLE, Vec::new(alloc))?;
    let mut source = SteadySource::new(text.as_bytes().to_vec(alloc)?);
    let mut command = Vec::new(alloc);
    command.push(String::from_str(alloc, "recover")?)?;
    Ok(run_tool(alloc, &command, &mut source, out, &mut err).code())
}

// How often the words stand in what a run writes for the text, where it ends well.
fn count_written(alloc: Global, text: &str, words: &str) -> Result<Option<usize>, AllocError> {
    let mut out = MemorySink::with_room(alloc, 1_000_000, Vec::new(alloc))?;
    if recover_into(alloc, text, &mut out)? != 0 {
        return Ok(None);
    }
    match str::from_utf8(out.as_slice()) {
        Ok(written) => Ok(Some(written.split(words).count().saturating_sub(1))),
        Err(_) => Ok(None),
    }
}

#[test]
fn towers_of_common_types_are_written_out(rt: HostRuntime) {
    assert!(rt; count_written(rt.alloc(), tower(), "__cedar::Long") == Ok(Some(1024)));
}

// The code that recovering the text ends with.
fn code_of(alloc: Global, text: &str) -> Result<u8, AllocError> {
    let mut out = MemorySink::with_room(alloc, AMPLE, Vec::new(alloc))?;
    recover_into(alloc, text, &mut out)
}

// Is a schema of so many of the bytes answered? It is one where nothing stands in it, or all but its last line end.
fn is_front_answered(alloc: Global, size: usize) -> bool {
    let code = if size == 0 || size >= 592 { 0 } else { 1 };
    match photo_text().get(..size) {
        Some(front) => code_of(alloc, front) == Ok(code),
        None => false,
    }
}

#[test]
fn each_beginning_of_a_schema_is_answered(rt: HostRuntime) {
    for size in 0..594 {
        assert!(rt; is_front_answered(rt.alloc(), size), "{size}");
    }
}
