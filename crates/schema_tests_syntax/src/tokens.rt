// The tokens of texts, against a table.

use crate::letters::find_kind;
use crate::token_table::{blank_lines, token_lines};
use schema_syntax_tokens::{Scanned, scan, scan_short, string_body, token_text};
use schema_tests_lines::{Wanted, answer_and_text, with_line_ends};
use std::alloc::Global;

// The tokens and where they stop are found next.
fn find_scanned(wanted: &mut Wanted<'_>, scanned: &Scanned) {
    for token in &scanned.tokens {
        find_kind(wanted, token.kind);
        wanted.place(Some(token.loc));
        wanted.piece(" ");
    }
    wanted.number(scanned.at);
}

// Are what the line says the tokens of its text?
fn agrees(alloc: Global, line: &str) -> bool {
    let Ok(line) = with_line_ends(alloc, line) else {
        return false;
    };
    let (answer, text) = answer_and_text(line.as_str());
    let mut wanted = Wanted::new(answer);
    match scan(alloc, text) {
        Ok(scanned) => {
            find_scanned(&mut wanted, &scanned);
            wanted.is_met()
        }
        Err(_) => false,
    }
}

#[test]
fn tokens_agree_with_table(rt: HostRuntime) {
    for line in token_lines().lines() {
        assert!(rt; agrees(rt.alloc(), line), "{line}");
    }
    for line in blank_lines().lines() {
        assert!(rt; agrees(rt.alloc(), line), "{line}");
    }
}

// Is this the text of the first token, and this what stands between its quotes, where it has any?
fn first_is(alloc: Global, text: &str, whole: &str, body: Option<&str>) -> bool {
    let Ok(scanned) = scan_short(alloc, text) else {
        return false;
    };
    match scanned.tokens.as_slice() {
        [token, ..] => {
            token_text(token, text) == Some(whole)
                && string_body(token, text) == body
                && token_text(token, "s").is_none()
        }
        _ => false,
    }
}

#[test]
fn tokens_have_their_texts(rt: HostRuntime) {
    assert!(rt; first_is(rt.alloc(), "entity \u{e9}", "entity", None));
    assert!(rt;
        first_is(
            rt.alloc(),
            "\"\u{e9}\\\"\" in",
            "\"\u{e9}\\\"\"",
            Some("\u{e9}\\\"")
        )
    );
}
