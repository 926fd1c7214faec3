// What a text is recovered as, and why others are not. What errors say was told by the second program that the table
// is from.

use cedar_data::Diagnostic;
use cedar_names::ExtensionTable;
use cedar_schema_core::{RecoverError, Recovered, recover_schema};
use schema_tests_lines::says;
use std::alloc::Global;

// Is this the cause, and is this what the error says?
fn is_about(alloc: Global, error: &RecoverError, cause: &str, wanted: &str) -> bool {
    match error {
        RecoverError::Parse(_) => cause == "parse",
        RecoverError::Schema(error) => cause == "schema" && says(error.text(alloc), wanted),
        RecoverError::Captured(captured) => {
            cause == "captured" && says(captured.text(alloc), wanted)
        }
        RecoverError::Memory => false,
    }
}

// Is the text refused by this cause, with these words?
fn is_refused(alloc: Global, text: &str, cause: &str, wanted: &str) -> bool {
    let Ok(table) = ExtensionTable::all_available(alloc) else {
        return false;
    };
    match recover_schema(alloc, text, &table) {
        Ok(_) => false,
        Err(error) => is_about(alloc, &error, cause, wanted),
    }
}

// Are there so many entity types, actions and warnings, and this text?
fn is(recovered: &Recovered, counts: [usize; 3], wanted: &str) -> bool {
    [
        recovered.entity_types,
        recovered.actions,
        recovered.warnings.len(),
    ] == counts
        && recovered.text.as_str() == wanted
}

// Is the text recovered as this one, with so many entity types, actions and warnings?
fn is_recovered(alloc: Global, text: &str, counts: [usize; 3], wanted: &str) -> bool {
    let Ok(table) = ExtensionTable::all_available(alloc) else {
        return false;
    };
    match recover_schema(alloc, text, &table) {
        Ok(recovered) => is(&recovered, counts, wanted),
        Err(_) => false,
    }
}

#[test]
fn texts_are_recovered(rt: HostRuntime) {
    let alloc = rt.alloc();
    let text = "entity B; entity Long; action a;";
    let wanted = "entity B;\n\nentity Long;\n\naction \"a\";\n";
    assert!(rt; is_recovered(alloc, text, [2, 1, 1], wanted));
}

#[test]
fn causes_are_told(rt: HostRuntime) {
    let alloc = rt.alloc();
    assert!(rt; is_refused(alloc, "action a", "parse", ""));
    assert!(rt; is_refused(alloc, "entity A; entity A in X;", "parse", ""));
    let undefined = "failed to resolve types: X, Y, Z";
    let text = "entity B in [Y, B, Z]; entity A in X;";
    assert!(rt; is_refused(alloc, text, "schema", undefined));
    let captured =
        "the type `Action` of the empty namespace is used in namespace `N` by entity type `E`, where it would be read as `N::Action`";
    let text = "action z; type T = Action; namespace N { action a; entity E { x: T }; }";
    assert!(rt; is_refused(alloc, text, "captured", captured));
}
