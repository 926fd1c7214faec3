// The fragments that texts are translated to, and their copies, against a table.

use crate::fragment_lines::says_fragment;
use crate::translated_table::translated_lines;
use cedar_data::CloneIn;
use cedar_identifiers::RawName;
use cedar_names::ExtensionTable;
use schema_convert::parse_cedar_schema_fragment;
use schema_json::Fragment;
use schema_tests_lines::answer_and_text;
use std::alloc::Global;

// Does the answer say this fragment and its copy?
fn says_both(alloc: Global, answer: &str, fragment: Fragment<RawName>) -> bool {
    let copy = fragment.clone_in(alloc);
    let said = says_fragment(answer, &fragment);
    drop(fragment);
    match copy {
        Ok(copy) => said && says_fragment(answer, &copy),
        Err(_) => false,
    }
}

// Is the line's answer the fragment of its text?
fn is_fragment(alloc: Global, line: &str) -> bool {
    let (answer, text) = answer_and_text(line);
    match parse_cedar_schema_fragment(alloc, text, &ExtensionTable::none(alloc)) {
        Ok((fragment, _)) => says_both(alloc, answer, fragment),
        Err(_) => false,
    }
}

#[test]
fn translated_texts_agree_with_table(rt: HostRuntime) {
    for line in translated_lines().lines() {
        assert!(rt; is_fragment(rt.alloc(), line), "{line}");
    }
}
