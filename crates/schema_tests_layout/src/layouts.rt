// How texts are laid out, and that they stay so, against tables.

use crate::layout_table::{kept_lines, laid_lines};
use cedar_data::{Diagnostic, Text};
use schema_layout_texts::{LayoutError, layout, layout_kept};
use schema_tests_lines::{Wanted, answer_and_text, with_line_ends};
use std::alloc::Global;

// The text laid out, with empty lines kept or without any.
fn laid_out(alloc: Global, text: &str, keeps: bool) -> Result<Text, LayoutError> {
    if keeps {
        layout_kept(alloc, text)
    } else {
        layout(alloc, text)
    }
}

// Is the text laid out already?
fn stays(alloc: Global, text: &str, keeps: bool) -> bool {
    match laid_out(alloc, text, keeps) {
        Ok(again) => again.as_str() == text,
        Err(_) => false,
    }
}

// Does the answer say what the error tells?
fn says_error(alloc: Global, answer: &str, error: LayoutError) -> bool {
    match error {
        LayoutError::Syntax(errors) => {
            let mut wanted = Wanted::new(answer);
            wanted.piece("!");
            wanted.text(errors.text(alloc));
            wanted.is_met()
        }
        LayoutError::Memory => false,
    }
}

// Is the line's text laid out as it says?
fn agrees(alloc: Global, line: &str, keeps: bool) -> bool {
    let Ok(line) = with_line_ends(alloc, line) else {
        return false;
    };
    let (answer, text) = answer_and_text(line.as_str());
    match laid_out(alloc, text, keeps) {
        Ok(laid) => laid.as_str() == answer && stays(alloc, answer, keeps),
        Err(error) => says_error(alloc, answer, error),
    }
}

#[test]
fn texts_agree_with_table(rt: HostRuntime) {
    for line in laid_lines().lines() {
        assert!(rt; agrees(rt.alloc(), line, false), "{line}");
    }
    for line in kept_lines().lines() {
        assert!(rt; agrees(rt.alloc(), line, true), "{line}");
    }
}
