// The syntax faults of texts, against a table, and the syntax of a text without one.

use crate::letters::find_kinds;
use crate::sentence_table::sentence_lines;
use schema_syntax::{Refused, SyntaxFault, sentence_of, syntax_fault_of};
use schema_syntax_parser::{ItemSyntax, next_item};
use schema_syntax_reader::tree_of_tokens;
use schema_tests_lines::{Wanted, answer_and_text};
use std::alloc::Global;

// The fault is found next, where the token is the part of the text at its place.
fn find_fault(wanted: &mut Wanted<'_>, fault: &SyntaxFault, text: &str) {
    match fault {
        SyntaxFault::InvalidToken(at) => {
            wanted.piece("invalid ");
            wanted.number(*at);
        }
        SyntaxFault::UnrecognizedEof(at, list) => {
            wanted.piece("end ");
            wanted.number(*at);
            wanted.piece(" ");
            find_kinds(wanted, list.as_slice());
        }
        SyntaxFault::UnrecognizedToken(start, token, end, list) => {
            wanted.piece(if text.get(*start..*end) == Some(token.as_str()) {
                "token "
            } else {
                "?"
            });
            wanted.number(*start);
            wanted.piece(" ");
            wanted.number(*end);
            wanted.piece(" ");
            find_kinds(wanted, list.as_slice());
        }
    }
}

// Is what the line says the fault of its text?
fn agrees(alloc: Global, line: &str) -> bool {
    let (answer, text) = answer_and_text(line);
    let mut wanted = Wanted::new(answer);
    match syntax_fault_of(alloc, text) {
        Ok(None) => wanted.piece("none"),
        Ok(Some(fault)) => find_fault(&mut wanted, &fault, text),
        Err(_) => return false,
    }
    wanted.is_met()
}

// Are there tokens of the text, exactly where the line says that it has no fault?
fn has_tokens(alloc: Global, line: &str) -> bool {
    let (answer, text) = answer_and_text(line);
    match sentence_of(alloc, text) {
        Ok(_) => answer == "none",
        Err(Refused::Fault(_)) => answer != "none",
        Err(Refused::Memory) => false,
    }
}

#[test]
fn syntax_faults_agree_with_table(rt: HostRuntime) {
    for line in sentence_lines().lines() {
        assert!(rt;
            agrees(rt.alloc(), line) && has_tokens(rt.alloc(), line),
            "{line}"
        );
    }
}

// Is the item a declaration from here to there?
fn is_declaration(item: &ItemSyntax, start: usize, end: usize) -> bool {
    match item {
        ItemSyntax::Decl(decl) => decl.loc.start == start && decl.loc.end == end,
        _ => false,
    }
}

// Do the tokens of the text have a syntax and a tree, of one declaration?
fn has_one_declaration(alloc: Global, text: &str, start: usize, end: usize) -> bool {
    let Ok(tokens) = sentence_of(alloc, text) else {
        return false;
    };
    let Ok(Some((item, rest))) = next_item(alloc, &tokens) else {
        return false;
    };
    let is_one = rest.is_empty() && is_declaration(&item, start, end);
    is_one && tree_of_tokens(alloc, text, tokens).is_ok()
}

#[test]
fn tokens_have_a_syntax(rt: HostRuntime) {
    assert!(rt; has_one_declaration(rt.alloc(), " entity A in [B::C,] tags D;", 1, 28));
}
