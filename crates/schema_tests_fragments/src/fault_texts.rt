// The faults and the warnings of texts, and of their copies, against tables.

use crate::fault_lines::{find_faults, find_warnings};
use crate::fault_table::{fault_lines, warning_lines};
use cedar_names::ExtensionTable;
use schema_convert::{
    CedarSchemaParseErrors, SchemaWarning, ToJsonSchemaErrors, ToJsonSchemaFailure,
    cedar_schema_to_json_schema, parse_cedar_schema_fragment,
};
use schema_syntax::parse_schema;
use schema_tests_lines::{Wanted, answer_and_text, copies, with_line_ends};
use std::alloc::Global;

// Does the answer say these faults?
fn says_faults(answer: &str, errors: &ToJsonSchemaErrors) -> bool {
    let mut wanted = Wanted::new(answer);
    find_faults(&mut wanted, errors);
    wanted.is_met()
}

// Does the answer say these warnings, and is each copied?
fn says_warnings(alloc: Global, answer: &str, warnings: &[SchemaWarning]) -> bool {
    let mut wanted = Wanted::new(answer);
    find_warnings(&mut wanted, warnings);
    wanted.is_met() && warnings.iter().all(|warning| copies(alloc, warning))
}

// Is what the answer says found of the text?
fn is_found(alloc: Global, answer: &str, text: &str, table: &ExtensionTable) -> bool {
    match parse_cedar_schema_fragment(alloc, text, table) {
        Ok((_, warnings)) => says_warnings(alloc, answer, &warnings),
        Err(errors) => match &errors {
            CedarSchemaParseErrors::JsonError(faults) => {
                says_faults(answer, faults) && copies(alloc, &errors)
            }
            _ => false,
        },
    }
}

// Is what the answer says found of the text's tree?
fn is_found_of_tree(alloc: Global, answer: &str, text: &str, table: &ExtensionTable) -> bool {
    let Ok(schema) = parse_schema(alloc, text) else {
        return false;
    };
    match cedar_schema_to_json_schema(alloc, schema, table) {
        Ok((_, warnings)) => says_warnings(alloc, answer, &warnings),
        Err(failure) => match &failure {
            ToJsonSchemaFailure::Errors(faults) => {
                says_faults(answer, faults) && copies(alloc, &failure)
            }
            ToJsonSchemaFailure::Memory => false,
        },
    }
}

// Is what the line says found of its text?
fn agrees(alloc: Global, line: &str, table: &ExtensionTable) -> bool {
    let Ok(line) = with_line_ends(alloc, line) else {
        return false;
    };
    let (answer, text) = answer_and_text(line.as_str());
    is_found(alloc, answer, text, table) && is_found_of_tree(alloc, answer, text, table)
}

// The first of the lines that does not agree, or nothing.
fn first_wrong(alloc: Global, lines: &str) -> &str {
    let Ok(table) = ExtensionTable::all_available(alloc) else {
        return "no table";
    };
    for line in lines.lines() {
        if !agrees(alloc, line, &table) {
            return line;
        }
    }
    ""
}

#[test]
fn faults_and_warnings_agree_with_table(rt: HostRuntime) {
    let wrong = first_wrong(rt.alloc(), fault_lines());
    assert!(rt; wrong.is_empty(), "{wrong}");
    let wrong = first_wrong(rt.alloc(), warning_lines());
    assert!(rt; wrong.is_empty(), "{wrong}");
}

// Is the one text's fragment like the other's, whatever its places?
fn are_alike(alloc: Global, text: &str, other: &str) -> bool {
    let table = ExtensionTable::none(alloc);
    let one = parse_cedar_schema_fragment(alloc, text, &table);
    let other = parse_cedar_schema_fragment(alloc, other, &table);
    match (one, other) {
        (Ok((one, _)), Ok((other, _))) => one == other,
        _ => false,
    }
}

#[test]
fn comparisons_see_no_place(rt: HostRuntime) {
    let alloc = rt.alloc();
    let text = "@a entity A in B::C { x: D }; action b in c; type T = Set<E>;";
    let other = " type T = Set < E >; action b in [c]; @a entity A in [B::C] { x : D };";
    assert!(rt; are_alike(alloc, text, other));
    assert!(rt; !are_alike(alloc, text, "entity A;"));
}

// Is a refusal by the grammar copied?
fn copies_syntax_error(alloc: Global) -> bool {
    match parse_cedar_schema_fragment(alloc, "entity A", &ExtensionTable::none(alloc)) {
        Ok(_) => false,
        Err(errors) => {
            copies(alloc, &errors) && matches!(&errors, CedarSchemaParseErrors::SyntaxError(_))
        }
    }
}

#[test]
fn syntax_errors_are_handed_on(rt: HostRuntime) {
    assert!(rt; copies_syntax_error(rt.alloc()));
}
