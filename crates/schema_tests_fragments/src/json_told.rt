use crate::json_told_table::TOLD;
use cedar_data::{Diagnostic, Text};
use cedar_identifiers::RawName;
use schema_json::Fragment;
use schema_json_io::{FragmentJson, JsonDeserializationError};
use std::alloc::{AllocError, Global};

// Are these the words of the error and of its advice, and does it point to no place?
fn tells(
    alloc: Global,
    error: &JsonDeserializationError,
    source: &str,
    words: &str,
    advice: &str,
) -> Result<bool, AllocError> {
    let text = error.text(alloc)?;
    let labels = error.labels(alloc)?;
    let help = error.help(alloc, source)?.unwrap_or(Text::new(alloc));
    Ok(text.as_str() == words && help.as_str() == advice && labels.is_empty())
}

// Is the line's text refused with the words and the advice that the line says?
fn agrees(alloc: Global, line: &str) -> bool {
    let (wanted, text) = line.split_once(" <- ").unwrap_or(("", ""));
    let (words, advice) = wanted.split_once('|').unwrap_or(("", ""));
    let answer: Result<Fragment<RawName>, JsonDeserializationError> = FragmentJson::from_json_str(
        alloc, text,
    );
    match answer {
        Ok(_) => false,
        Err(error) => match tells(alloc, &error, text, words, advice) {
            Ok(told) => told,
            Err(_) => false,
        },
    }
}

#[test]
fn refusals_are_told(rt: HostRuntime) {
    for line in TOLD.lines() {
        assert!(rt; agrees(rt.alloc(), line), "{line}");
    }
}
