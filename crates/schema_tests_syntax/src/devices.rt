// Inputs read whole, and the room of a sink.

use cedar_data::CloneIn;
use cedar_io::{
    Failed, MAX_INPUT, MemorySink, MemorySource, NullSink, ReadEnd, SteadySource, read_input,
    write_text,
};
use std::alloc::{AllocError, Global};

// How an input of so many blanks is read.
fn read_blanks(alloc: Global, count: usize) -> Result<usize, ReadEnd> {
    let Ok(blanks) = vec![in alloc; b' '; count] else {
        return Err(ReadEnd::Memory);
    };
    let mut source = SteadySource::new(blanks);
    match read_input(alloc, &mut source) {
        Ok(bytes) => Ok(bytes.len()),
        Err(end) => Err(end),
    }
}

#[test]
fn inputs_are_read(rt: HostRuntime) {
    assert!(rt; read_blanks(rt.alloc(), 5000) == Ok(5000));
    assert!(rt; read_blanks(rt.alloc(), MAX_INPUT) == Ok(MAX_INPUT));
    assert!(rt; read_blanks(rt.alloc(), MAX_INPUT + 1) == Err(ReadEnd::TooLong));
}

// Does a sink in memory take a text?
fn takes(alloc: Global, text: &str) -> bool {
    match MemorySink::with_room(alloc, 9, Vec::new(alloc)) {
        Ok(mut sink) => {
            write_text(&mut sink, text).is_ok() && sink.as_slice() == text.as_bytes()
        }
        Err(_) => false,
    }
}

#[test]
fn sinks_have_room(rt: HostRuntime) {
    assert!(rt; takes(rt.alloc(), "entity"));
    assert!(rt; write_text(&mut NullSink, "entity").is_ok());
}

// Is this what a failure says?
fn failure_says(alloc: Global, wanted: &str) -> bool {
    match format!(in alloc; "{Failed}") {
        Ok(message) => message.as_str() == wanted,
        Err(_) => false,
    }
}

#[test]
fn a_failure_has_a_message(rt: HostRuntime) {
    assert!(rt; failure_says(rt.alloc(), "the device failed"));
}

// Is there memory for a copy?
fn is_copied<T: CloneIn>(alloc: Global, value: &T) -> bool {
    value.clone_in(alloc).is_ok()
}

// Is a sink in memory copied?
fn sink_is_copied(alloc: Global) -> bool {
    match MemorySink::with_room(alloc, 9, Vec::new(alloc)) {
        Ok(sink) => is_copied(alloc, &sink),
        Err(_) => false,
    }
}

#[test]
fn objects_in_memory_are_copied(rt: HostRuntime) {
    let alloc = rt.alloc();
    assert!(rt; is_copied(alloc, &SteadySource::new(Vec::new(alloc))));
    assert!(rt; is_copied(alloc, &MemorySource::new(Vec::new(alloc), Vec::new(alloc))));
    assert!(rt; sink_is_copied(alloc));
}
