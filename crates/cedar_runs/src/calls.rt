//! The words of a program, for its `main`.

use crate::status::Status;
use std::io::Write;
use std::{env, io};

// The words after the program's name. A word that is not UTF-8 is no word of a command, so that there are none then.
// It errs where the words cannot be had.
fn words_given(rt: &HostRuntime) -> io::Result<Vec<String>> {
    let mut words = Vec::new(rt.alloc());
    match env::args(rt) {
        Ok(given) => {
            for word in given.skip(1) {
                words.push(word)?;
            }
        }
        Err(error) => {
            if error.kind() != io::ErrorKind::InvalidData {
                return Err(error);
            }
        }
    }
    Ok(words)
}

// The help text or the version, where one word asks for it.
fn told<'a>(words: &[String], help: &'a str, version: &'a str) -> Option<&'a str> {
    match words {
        [word] => match word.as_str() {
            "--help" => Some(help),
            "--version" => Some(version),
            _ => None,
        },
        _ => None,
    }
}

// Writes a text to standard output.
fn tell(rt: &HostRuntime, text: &str) -> Status {
    match rt.stdout().write_all(text.as_bytes()) {
        Ok(()) => Status::Done,
        Err(_) => Status::WriteFault,
    }
}

/// What a program was called for.
#[derive(Drop)]
pub enum Call {
    /// A run with these words.
    Run(Vec<String>),
    /// Nothing is left to do: the help text or the version was written, or the words could not be had.
    Ended(Status),
}

/// What the program was called for, by the words after its name. The one word `--help` or `--version` is answered with
/// that text.
pub fn call_of(rt: &HostRuntime, help: &str, version: &str) -> Call {
    match words_given(rt) {
        Ok(words) => match told(&words, help, version) {
            Some(text) => Call::Ended(tell(rt, text)),
            None => Call::Run(words),
        },
        Err(_) => Call::Ended(Status::Memory),
    }
}
