// What strings stand for and how texts are written as strings, against tables.

use crate::string_table::{quoted_lines, value_lines};
use cedar_data::Text;
use schema_syntax_tokens::{Refusal, push_quoted, unescape};
use schema_tests_lines::{Wanted, answer_and_text, with_line_ends};
use std::alloc::Global;

// Does the body stand for what the answer says?
fn stands_for(alloc: Global, answer: &str, body: &str) -> bool {
    match unescape(alloc, body) {
        Ok(value) => answer.strip_prefix('=') == Some(value.as_str()),
        Err(Refusal::Escape(at)) => {
            let mut wanted = Wanted::new(answer);
            wanted.piece("bad ");
            wanted.number(at);
            wanted.is_met()
        }
        Err(Refusal::Memory) => false,
    }
}

// Is the value written as the answer says, behind what stood there?
fn is_quoted(alloc: Global, answer: &str, value: &str) -> bool {
    let mut text = Text::new(alloc);
    text.push_str("x ").is_ok()
        && push_quoted(&mut text, value).is_ok()
        && text.as_str().strip_prefix("x ") == Some(answer)
}

// Does the body of the line stand for what the line says, or is its text written so?
fn agrees(alloc: Global, line: &str, quoted: bool) -> bool {
    let Ok(line) = with_line_ends(alloc, line) else {
        return false;
    };
    let (answer, text) = answer_and_text(line.as_str());
    if quoted {
        is_quoted(alloc, answer, text)
    } else {
        stands_for(alloc, answer, text)
    }
}

#[test]
fn strings_agree_with_tables(rt: HostRuntime) {
    for line in value_lines().lines() {
        assert!(rt; agrees(rt.alloc(), line, false), "{line}");
    }
    for line in quoted_lines().lines() {
        assert!(rt; agrees(rt.alloc(), line, true), "{line}");
    }
}
