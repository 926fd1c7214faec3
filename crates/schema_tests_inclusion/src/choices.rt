// The values that show what a new schema does not admit, against a table and the definition.

use crate::admitted::admits;
use crate::choice_table::choice_lines;
use cedar_names::ExtensionTable;
use schema_build::ValidatorSchema;
use schema_inclusion::{Inclusion, SchemaValue, check_inclusion, schema_value_text};
use schema_tests_lines::answer_and_text;
use std::alloc::Global;

// Is this the text of the value?
fn is_text(alloc: Global, wanted: &str, value: &SchemaValue) -> bool {
    match schema_value_text(alloc, value) {
        Ok(text) => text.as_str() == wanted,
        Err(_) => false,
    }
}

// Does the schema of the text admit the value?
fn admits_in(
    alloc: Global,
    text: &str,
    table: &ExtensionTable,
    value: &SchemaValue,
) -> Option<bool> {
    match ValidatorSchema::from_cedarschema_str(alloc, text, table) {
        Ok((schema, _)) => Some(admits(&schema, value)),
        Err(_) => None,
    }
}

// Does the old schema admit the value, and the new one not?
fn is_lost(
    alloc: Global,
    old: &str,
    new: &str,
    table: &ExtensionTable,
    value: &SchemaValue,
) -> bool {
    admits_in(alloc, old, table, value) == Some(true)
        && admits_in(alloc, new, table, value) == Some(false)
}

// Is the value of the line's two schemas what it says?
fn agrees(alloc: Global, line: &str, table: &ExtensionTable) -> bool {
    let (wanted, texts) = answer_and_text(line);
    let (old, new) = answer_and_text(texts);
    match check_inclusion(alloc, old, new, table) {
        Ok(Inclusion::Yes) => wanted == "included",
        Ok(Inclusion::No(value)) => {
            is_text(alloc, wanted, &value) && is_lost(alloc, old, new, table, &value)
        }
        Err(_) => false,
    }
}

#[test]
fn values_agree_with_table(rt: HostRuntime) {
    let Ok(table) = ExtensionTable::all_available(rt.alloc()) else {
        return;
    };
    for line in choice_lines().lines() {
        assert!(rt; agrees(rt.alloc(), line, &table), "{line}");
    }
}
