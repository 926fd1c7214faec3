// Which fragments are printable, against a table.

use crate::printable_table::printable_lines;
use cedar_names::ExtensionTable;
use schema_json_io::read::from_json_str;
use schema_print::is_printable;
use schema_print_faithful::faithful_text;
use schema_tests_lines::answer_and_text;
use std::alloc::Global;

// Is the fragment of the line's text printable, and has it a faithful text, where the line says so?
fn agrees(alloc: Global, line: &str, table: &ExtensionTable) -> bool {
    let (answer, text) = answer_and_text(line);
    let Ok(fragment) = from_json_str(alloc, text) else {
        return false;
    };
    let Ok(faithful) = faithful_text(alloc, &fragment, table) else {
        return false;
    };
    is_printable(&fragment, table) == (answer == "yes") && faithful.is_some() == (answer == "yes")
}

// The first of the lines that does not agree, or nothing.
fn first_wrong(alloc: Global, lines: &str) -> &str {
    let Ok(table) = ExtensionTable::all_available(alloc) else {
        return "no table";
    };
    for line in lines.lines() {
        if !agrees(alloc, line, &table) {
            return line;
        }
    }
    ""
}

#[test]
fn printable_fragments_agree_with_table(rt: HostRuntime) {
    let wrong = first_wrong(rt.alloc(), printable_lines());
    assert!(rt; wrong.is_empty(), "{wrong}");
}
