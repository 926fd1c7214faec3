use crate::json_old_table::OLD_TEXTS;
use crate::json_shapes::error_line;
use cedar_identifiers::RawName;
use schema_compat::FragmentDeprecated;
use schema_json::Fragment;
use schema_json_io::{JsonDeserializationError, WriteJson};
use std::alloc::Global;

/// Is the fragment written so?
pub fn is_written(alloc: Global, fragment: &Fragment<RawName>, wanted: &str) -> bool {
    let Ok(value) = fragment.to_json_value(alloc) else {
        return false;
    };
    match value.to_string(alloc) {
        Ok(written) => written.as_str() == wanted,
        Err(_) => false,
    }
}

// Is the answer on the line's text the one that the line says?
fn agrees(alloc: Global, line: &str) -> bool {
    let (wanted, text) = line.split_once(" <- ").unwrap_or(("", ""));
    let answer: Result<Fragment<RawName>, JsonDeserializationError> =
        FragmentDeprecated::from_deprecated_json_str(alloc, text);
    match answer {
        Ok(fragment) => is_written(alloc, &fragment, wanted),
        Err(error) => match error_line(alloc, &error) {
            Ok(line) => line.as_str() == wanted,
            Err(_) => false,
        },
    }
}

#[test]
fn old_texts_are_read_or_refused(rt: HostRuntime) {
    for line in OLD_TEXTS.lines() {
        assert!(rt; agrees(rt.alloc(), line), "{line}");
    }
}

// Is the value of the text's fragment, which has the same form as the text, read as this fragment?
fn is_read_of_its_value(alloc: Global, text: &str) -> bool {
    let answer: Result<Fragment<RawName>, JsonDeserializationError> =
        FragmentDeprecated::from_deprecated_json_str(alloc, text);
    let Ok(fragment) = answer else {
        return false;
    };
    let Ok(value) = fragment.to_json_value(alloc) else {
        return false;
    };
    let again: Result<Fragment<RawName>, JsonDeserializationError> =
        FragmentDeprecated::from_deprecated_json_value(alloc, value);
    match again {
        Ok(again) => again == fragment,
        Err(_) => false,
    }
}

#[test]
fn old_values_are_read(rt: HostRuntime) {
    let text =
        "{\"N\":{\"entityTypes\":{\"A\":{},\"B\":{\"memberOfTypes\":[\"A\"]}},\"actions\":{}}}";
    assert!(rt; is_read_of_its_value(rt.alloc(), text));
}
