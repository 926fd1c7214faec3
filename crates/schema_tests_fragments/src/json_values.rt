use crate::json_old_shapes::is_written;
use crate::json_value_table::VALUES;
use cedar_identifiers::RawName;
use schema_json::Fragment;
use schema_json_io::{FragmentJson, JsonDeserializationError, WriteJson};
use std::alloc::Global;

// Is the fragment that the fragment's value says written so?
fn is_written_again(alloc: Global, fragment: &Fragment<RawName>, wanted: &str) -> bool {
    let Ok(value) = fragment.to_json_value(alloc) else {
        return false;
    };
    let again: Result<Fragment<RawName>, JsonDeserializationError> = FragmentJson::from_json_value(
        alloc, value,
    );
    match again {
        Ok(again) => is_written(alloc, &again, wanted),
        Err(_) => false,
    }
}

// Is the fragment of the line's text written as the line says?
fn agrees(alloc: Global, line: &str) -> bool {
    let (wanted, text) = line.split_once(" <- ").unwrap_or(("", ""));
    let answer: Result<Fragment<RawName>, JsonDeserializationError> = FragmentJson::from_json_str(
        alloc, text,
    );
    match answer {
        Ok(fragment) => {
            is_written(alloc, &fragment, wanted) && is_written_again(alloc, &fragment, wanted)
        }
        Err(_) => false,
    }
}

#[test]
fn fragments_are_written(rt: HostRuntime) {
    for line in VALUES.lines() {
        assert!(rt; agrees(rt.alloc(), line), "{line}");
    }
}
