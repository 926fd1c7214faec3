// What texts resolve to, or the first reference that means nothing, against tables.

use crate::fragment_lines::says_fragment;
use crate::resolved_table::{refused_lines, resolved_lines};
use cedar_data::CloneIn;
use cedar_identifiers::{InternalName, NameText, RawName};
use cedar_names::ExtensionTable;
use schema_convert::parse_cedar_schema_fragment;
use schema_json::{ActionEntityUID, Fragment};
use schema_resolve::{ResolveError, ResolveFragment, UndefinedReferences, gather_undefined_alone};
use schema_tests_lines::{Wanted, answer_and_text};
use std::alloc::{AllocError, Global};

// Is the answer this text behind a mark?
fn says(answer: &str, mark: &str, text: Result<cedar_data::Text, AllocError>) -> bool {
    match text {
        Ok(text) => answer.strip_prefix(mark) == Some(text.as_str()),
        Err(_) => false,
    }
}

// Does the answer say the first reference that means nothing?
fn says_error(alloc: Global, answer: &str, error: &ResolveError) -> bool {
    match error {
        ResolveError::TypeNotDefined(error) => {
            says(answer, "!type ", error.undefined_types.first().text(alloc))
        }
        ResolveError::ActionNotDefined(error) => {
            says(answer, "!action ", error.0.first().text(alloc))
        }
        ResolveError::Memory => false,
    }
}

// Does the answer say a copy of the error?
fn says_copied_error(alloc: Global, answer: &str, error: &ResolveError) -> bool {
    match error.clone_in(alloc) {
        Ok(copy) => says_error(alloc, answer, &copy),
        Err(_) => false,
    }
}

// Does the answer say a copy of the fragment?
fn says_copied_fragment(alloc: Global, answer: &str, fragment: &Fragment<InternalName>) -> bool {
    match fragment.clone_in(alloc) {
        Ok(copy) => says_fragment(answer, &copy),
        Err(_) => false,
    }
}

// Does the answer say what the fragment resolves to?
fn says_resolved(
    alloc: Global,
    answer: &str,
    fragment: &Fragment<RawName>,
    table: &ExtensionTable,
) -> bool {
    match fragment.to_internal_name_fragment_with_resolved_types(alloc, table) {
        Ok(found) => says_copied_fragment(alloc, answer, &found),
        Err(error) => says_copied_error(alloc, answer, &error),
    }
}

// Is what the line says found of its text?
fn agrees(alloc: Global, line: &str, table: &ExtensionTable) -> bool {
    let (answer, text) = answer_and_text(line);
    match parse_cedar_schema_fragment(alloc, text, table) {
        Ok((fragment, _)) => says_resolved(alloc, answer, &fragment, table),
        Err(_) => false,
    }
}

// The first of the lines that does not agree, or nothing.
fn first_wrong(alloc: Global, lines: &str) -> &str {
    let Ok(table) = ExtensionTable::all_available(alloc) else {
        return "no table";
    };
    for line in lines.lines() {
        if !agrees(alloc, line, &table) {
            return line;
        }
    }
    ""
}

#[test]
fn resolved_texts_agree_with_table(rt: HostRuntime) {
    let wrong = first_wrong(rt.alloc(), resolved_lines());
    assert!(rt; wrong.is_empty(), "{wrong}");
}

#[test]
fn refused_texts_agree_with_table(rt: HostRuntime) {
    let wrong = first_wrong(rt.alloc(), refused_lines());
    assert!(rt; wrong.is_empty(), "{wrong}");
}

// Are these the references that mean nothing, types before actions?
fn are_undefined(alloc: Global, answer: &str, found: &UndefinedReferences) -> bool {
    let mut wanted = Wanted::new(answer);
    for name in &found.types {
        wanted.text(name.text(alloc));
        wanted.piece(" ");
    }
    for action in &found.actions {
        wanted.text(action.text(alloc));
        wanted.piece(" ");
    }
    wanted.is_met()
}

// Are these the references of the text that mean nothing?
fn has_undefined(alloc: Global, line: &str) -> bool {
    let (answer, text) = answer_and_text(line);
    let table = ExtensionTable::none(alloc);
    let Ok((fragment, _)) = parse_cedar_schema_fragment(alloc, text, &table) else {
        return false;
    };
    match gather_undefined_alone(alloc, &fragment, &table) {
        Ok(found) => are_undefined(alloc, answer, &found),
        Err(_) => false,
    }
}

// The references that mean nothing, in the order of the walk, each with a blank behind it, and behind `|` the text. The lines were
// worked out by hand, from the definition of candidates.
const UNDEFINED: &str = "\
|entity A in A;
Y X |entity A in Y { b: Set<X>, c: A };
X Action::\"b\" |action c in b; entity A { b: X };
X N::Action::\"b\" |namespace N { action c in N::Action::\"b\" appliesTo { principal: X, resource: A }; entity A; }
";

#[test]
fn undefined_references_are_gathered(rt: HostRuntime) {
    for line in UNDEFINED.lines() {
        assert!(rt; has_undefined(rt.alloc(), line), "{line}");
    }
}
