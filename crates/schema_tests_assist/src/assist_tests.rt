// What may stand at places of texts, against a table.

use crate::assist_table::{assist_lines, known_schema};
use crate::editor::Editor;
use cedar_data::{Diagnostic, Map};
use cedar_identifiers::RawName;
use cedar_names::ExtensionTable;
use schema_assist::{AssistError, Assistance, assist};
use schema_convert::parse_cedar_schema_fragment;
use schema_json::Fragment;
use schema_syntax_errors::expected_text;
use schema_tests_lines::{Wanted, answer_and_text};
use std::alloc::Global;

// What the text declares, and nothing where it has a fault.
fn known_of(alloc: Global, text: &str, table: &ExtensionTable) -> Fragment<RawName> {
    let text = if text == "*" { known_schema() } else { text };
    match parse_cedar_schema_fragment(alloc, text, table) {
        Ok((fragment, _)) => fragment,
        Err(_) => Fragment(Map::new(alloc)),
    }
}

// Does the answer say this?
fn says(alloc: Global, answer: &str, found: &Assistance) -> bool {
    let mut wanted = Wanted::new(answer);
    wanted.place(Some(found.partial));
    wanted.piece(" ");
    wanted.text(expected_text(alloc, &found.expected));
    wanted.piece(" ");
    wanted.number(found.expected.len());
    wanted.piece(":");
    for name in &found.names {
        wanted.piece(" ");
        wanted.piece(name.as_str());
    }
    wanted.is_met()
}

// Does the answer say what the refusal tells?
fn says_refusal(alloc: Global, answer: &str, error: &AssistError) -> bool {
    let mut wanted = Wanted::new(answer);
    wanted.piece("!");
    match error {
        AssistError::BadPlace => wanted.piece("no such place"),
        AssistError::Syntax(error) => wanted.text(error.text(alloc)),
        AssistError::Memory => return false,
    }
    wanted.is_met()
}

// Is at the line's place what it says?
fn agrees(alloc: Global, line: &str, table: &ExtensionTable) -> bool {
    let (answer, rest) = answer_and_text(line);
    let (at, rest) = answer_and_text(rest);
    let (known, text) = answer_and_text(rest);
    let known = known_of(alloc, known, table);
    match assist(alloc, text, at.parse().unwrap_or(0), &known, table) {
        Ok(found) => says(alloc, answer, &found),
        Err(error) => says_refusal(alloc, answer, &error),
    }
}

// Does an editor offer the name that it knows, in a text with a fault?
fn offers_kept_name(alloc: Global, table: ExtensionTable) -> bool {
    let text = "entity Ab; entity B in A";
    let mut editor = Editor::new(alloc, table);
    editor.keep(alloc, "entity Ab;");
    editor.keep(alloc, text);
    match editor.complete(alloc, text, text.len()) {
        Ok(found) => says(alloc, "@23-24 expected identifier or `[` 14: Ab", &found),
        Err(_) => false,
    }
}

#[test]
fn known_names_stay_known(rt: HostRuntime) {
    let Ok(table) = ExtensionTable::all_available(rt.alloc()) else {
        return;
    };
    assert!(rt; offers_kept_name(rt.alloc(), table));
}

#[test]
fn places_agree_with_table(rt: HostRuntime) {
    let Ok(table) = ExtensionTable::all_available(rt.alloc()) else {
        return;
    };
    for line in assist_lines().lines() {
        assert!(rt; agrees(rt.alloc(), line, &table), "{line}");
    }
}
