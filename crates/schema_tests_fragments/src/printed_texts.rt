// How fragments of texts are printed, against a table.

use crate::printed_table::printed_lines;
use cedar_data::{CloneIn, Diagnostic};
use cedar_identifiers::RawName;
use cedar_names::ExtensionTable;
use schema_convert::parse_cedar_schema_fragment;
use schema_json::Fragment;
use schema_json_io::{FragmentJson, JsonDeserializationError};
use schema_print::ToCedarSchema;
use schema_print_errors::ToCedarSchemaSyntaxError;
use schema_tests_lines::{Wanted, answer_and_text, with_line_ends};
use std::alloc::Global;

// Does the answer say what a copy of the error tells?
fn says_error(alloc: Global, answer: &str, error: &ToCedarSchemaSyntaxError) -> bool {
    let Ok(copy) = error.clone_in(alloc) else {
        return false;
    };
    let mut wanted = Wanted::new(answer);
    wanted.piece("!");
    wanted.text(copy.text(alloc));
    wanted.labels(copy.labels(alloc));
    wanted.advice(copy.help(alloc, ""));
    wanted.is_met()
}

// Is the fragment printed as the answer says?
fn is_printed(alloc: Global, answer: &str, fragment: &Fragment<RawName>) -> bool {
    match fragment.to_cedarschema(alloc) {
        Ok(text) => text.as_str() == answer,
        Err(error) => says_error(alloc, answer, &error),
    }
}

// Is what the line says found of its text?
fn agrees(alloc: Global, line: &str, table: &ExtensionTable) -> bool {
    let Ok(line) = with_line_ends(alloc, line) else {
        return false;
    };
    let (answer, text) = answer_and_text(&line);
    match parse_cedar_schema_fragment(alloc, text, table) {
        Ok((fragment, _)) => is_printed(alloc, answer, &fragment),
        Err(_) => false,
    }
}

// The first of the lines that does not agree, or nothing.
fn first_wrong(alloc: Global, lines: &str) -> &str {
    let Ok(table) = ExtensionTable::all_available(alloc) else {
        return "no table";
    };
    for line in lines.lines() {
        if !agrees(alloc, line, &table) {
            return line;
        }
    }
    ""
}

#[test]
fn printed_texts_agree_with_table(rt: HostRuntime) {
    let wrong = first_wrong(rt.alloc(), printed_lines());
    assert!(rt; wrong.is_empty(), "{wrong}");
}

// A JSON text whose fragment has an entity type with a shape that is no record, and what is told of it.
const NO_RECORD: [&str; 2] = [
    "{\"\":{\"commonTypes\":{\"Task\":{\"type\":\"Record\",\"attributes\":{}}},\"entityTypes\":{\"User\":{\"shape\":{\"type\":\"Task\"}}},\"actions\":{}}}",
    "!The following entities have shapes that cannot be converted to Cedar schema syntax: [User] help: Entity shapes may only be record types. In the Cedar schema syntax, they additionally may not reference common type definitions.",
];

// Is the fragment of the JSON text printed as the answer says?
fn is_printed_of_json(alloc: Global, json: &str, answer: &str) -> bool {
    let fragment: Result<Fragment<RawName>, JsonDeserializationError> = FragmentJson::from_json_str(
        alloc, json,
    );
    match fragment {
        Ok(fragment) => is_printed(alloc, answer, &fragment),
        Err(_) => false,
    }
}

#[test]
fn shapes_that_are_no_records_are_refused(rt: HostRuntime) {
    let [json, answer] = NO_RECORD;
    assert!(rt; is_printed_of_json(rt.alloc(), json, answer));
}

// Texts whose fragments are those of their printed texts.
const READ_BACK: &str = "entity User = { jobLevel: Long, } tags Set<String>;
entity Foo {a: {}};
entity Foo enum [\"\\0\\n\\x7f\"];
entity enum enum [\"enum\"];
action Delete in Action::\"\\n\\x00\";
external entity external;
namespace N { external entity Foo in [N::Bar, Baz]; }
external action Foo, Bar in [Action::\"Baz\"];
@doc(\"n\") namespace T { @doc(\"c\") type Task = { @doc(\"id\") \"id\": Long, }; }";

// Does the printed text of the fragment say it again, whatever its places?
fn is_said_again(alloc: Global, fragment: &Fragment<RawName>, table: &ExtensionTable) -> bool {
    let Ok(printed) = fragment.to_cedarschema(alloc) else {
        return false;
    };
    match parse_cedar_schema_fragment(alloc, printed.as_str(), table) {
        Ok((again, _)) => again == *fragment,
        Err(_) => false,
    }
}

// Is the text one of a fragment whose printed text says it again?
fn reads_back(alloc: Global, text: &str) -> bool {
    let table = ExtensionTable::none(alloc);
    match parse_cedar_schema_fragment(alloc, text, &table) {
        Ok((fragment, _)) => is_said_again(alloc, &fragment, &table),
        Err(_) => false,
    }
}

#[test]
fn printed_texts_read_back(rt: HostRuntime) {
    for line in READ_BACK.lines() {
        assert!(rt; reads_back(rt.alloc(), line), "{line}");
    }
}
