// What is said of lists of kinds, against a table.

use crate::expected_table::expected_lines;
use crate::letters::{are, kinds_of};
use schema_syntax_grammar::{
    Fault, TokenKind, expected_after, fault_of, is_sentence, longest_viable,
};
use std::alloc::Global;

// Does `expected_after` say so, where so many of the kinds begin a sentence?
fn expects(alloc: Global, kinds: &[TokenKind], place: usize, expected: &str) -> bool {
    match expected_after(alloc, kinds) {
        Ok(None) => place < kinds.len(),
        Ok(Some(list)) => place == kinds.len() && are(&list, expected),
        Err(_) => false,
    }
}

// Does `fault_of` say so?
fn faults(alloc: Global, kinds: &[TokenKind], place: usize, expected: &str, whole: bool) -> bool {
    match fault_of(alloc, kinds) {
        Ok(None) => whole,
        Ok(
            Some(
                Fault {
                    place: at,
                    expected: list,
                },
            ),
        ) => at == place && are(&list, expected),
        Err(_) => false,
    }
}

// Do the four functions say of a line's kinds what the line says?
fn agrees(alloc: Global, line: &str) -> bool {
    let mut words = line.split(' ');
    let Ok(kinds) = kinds_of(alloc, words.next().unwrap_or("")) else {
        return false;
    };
    let place = words.next().unwrap_or("").parse::<usize>().unwrap_or(0);
    let expected = words.next().unwrap_or("");
    let whole = place == kinds.len() && expected.contains('e');
    longest_viable(alloc, &kinds) == Ok(place)
        && is_sentence(alloc, &kinds) == Ok(whole)
        && expects(alloc, &kinds, place, expected)
        && faults(alloc, &kinds, place, expected, whole)
}

#[test]
fn lists_of_kinds_agree_with_table(rt: HostRuntime) {
    for line in expected_lines().lines() {
        assert!(rt; agrees(rt.alloc(), line), "{line}");
    }
}
