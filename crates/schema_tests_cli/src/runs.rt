// Runs over files in memory. Each line of the table is a run, as its head says.

use crate::run_table::run_lines;
use cedar_files::{Files, MemoryFiles};
use cedar_io::{MemorySink, SteadySource};
use cedar_schema_cli::run_cli;
use schema_tests_lines::with_line_ends;
use std::alloc::{AllocError, Global};

// How much room the outputs have.
const AMPLE: usize = 4096;

// The words as strings.
fn strings(alloc: Global, words: &str) -> Result<Vec<String>, AllocError> {
    let mut strings = Vec::new(alloc);
    for word in words.split_whitespace() {
        strings.push(String::from_str(alloc, word)?)?;
    }
    Ok(strings)
}

// The bytes with the numbers of these characters.
fn bytes_of(alloc: Global, text: &str) -> Result<Vec<u8>, AllocError> {
    let mut bytes = Vec::new(alloc);
    for letter in text.chars() {
        bytes.push((u32::from(letter) % 256) as u8)?;
    }
    Ok(bytes)
}

// The front of the line and what stands behind the sign.
fn field(line: &str) -> (&str, &str) {
    line.split_once('‖').unwrap_or(("", ""))
}

// What stands between the signs.
fn fields<'a>(alloc: Global, row: &'a str) -> Vec<&'a str> {
    let mut fields = Vec::new(alloc);
    for part in row.split('‖') {
        if fields.push(part).is_err() {
            break;
        }
    }
    fields
}

// Puts each file of the row, `path‖content‖..`. A row without a file is empty.
fn put_all(alloc: Global, files: &mut MemoryFiles, row: &str) -> bool {
    for pair in fields(alloc, row).chunks_exact(2) {
        let [path, content] = pair else {
            return false;
        };
        let Ok(bytes) = bytes_of(alloc, content) else {
            return false;
        };
        if files.put(path, bytes.as_slice()).is_err() {
            return false;
        }
    }
    true
}

// Does each file of the row hold what the row says?
fn all_hold(alloc: Global, files: &mut MemoryFiles, row: &str) -> bool {
    for pair in fields(alloc, row).chunks_exact(2) {
        let [path, content] = pair else {
            return false;
        };
        let (Ok(wanted), Ok(found)) = (bytes_of(alloc, content), files.read(alloc, path)) else {
            return false;
        };
        if wanted.as_slice() != found.as_slice() {
            return false;
        }
    }
    true
}

// The files of all runs, each with its content.
const FILES: &str =
    "fine‖entity A;\n‖loose‖entity A,B;‖undefined‖entity A;\nentity B in C;\n‖broken‖entity A ~;\n‖raw‖\u{ff}‖twice‖namespace N { entity A; }\nentity A;\nentity B in N::A;\n";

// What a run is to end as: the code, and what goes to the two outputs.
struct End<'a> {
    code: u8,
    out: &'a str,
    err: &'a str,
}

impl<'a> Drop for End<'a> {
    fn drop(self) {
        let End {
            code: _code,
            out: _out,
            err: _err,
        } = self;
    }
}

// Does a run with these words on this input end so, and leave the files so?
fn ends(alloc: Global, words: &str, input: &str, end: &End<'_>, left: &str) -> bool {
    let (Ok(words), Ok(bytes)) = (strings(alloc, words), bytes_of(alloc, input)) else {
        return false;
    };
    let mut files = MemoryFiles::new(alloc, 0);
    if !put_all(alloc, &mut files, FILES) {
        return false;
    }
    let mut source = SteadySource::new(bytes);
    let Ok(mut out) = MemorySink::with_room(alloc, AMPLE, Vec::new(alloc)) else {
        return false;
    };
    let Ok(mut err) = MemorySink::with_room(alloc, AMPLE, Vec::new(alloc)) else {
        return false;
    };
    let status = run_cli(alloc, &words, &mut files, &mut source, &mut out, &mut err);
    status.code() == end.code
        && out.as_slice() == end.out.as_bytes()
        && err.as_slice() == end.err.as_bytes()
        && all_hold(alloc, &mut files, left)
}

// Does the run of the line end as it says?
fn agrees(alloc: Global, line: &str) -> bool {
    let Ok(line) = with_line_ends(alloc, line) else {
        return false;
    };
    let (words, line) = field(line.as_str());
    let (input, line) = field(line);
    let (code, line) = field(line);
    let (out, line) = field(line);
    let (err, left) = field(line);
    match code.parse::<u8>() {
        Ok(code) => ends(alloc, words, input, &End { code, out, err }, left),
        Err(_) => false,
    }
}

#[test]
fn the_program_answers_as_the_table_says(rt: HostRuntime) {
    let alloc = rt.alloc();
    assert!(rt; run_lines().lines().all(|line| agrees(alloc, line)));
}
