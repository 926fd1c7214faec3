// What refused texts are told, against a table, and what is told of annotations and of want of memory.

use crate::error_lines::find_user_error;
use crate::message_table::message_lines;
use cedar_data::{CloneIn, Diagnostic, Loc, Node};
use schema_syntax::{deduplicate_annotations, parse_schema};
use schema_syntax_errors::{
    AnnotationError, ParseError, ParseErrors, ParseSchemaError, UserError, expected_text,
};
use schema_syntax_grammar::TokenKind;
use schema_syntax_tree::{Annotated, SrcAnnotation, SrcWord};
use schema_tests_lines::{Wanted, answer_and_text, with_line_ends};
use std::alloc::{AllocError, Global};

// The advice is found next.
fn find_help(wanted: &mut Wanted<'_>, help: Option<&str>) {
    if let Some(help) = help {
        wanted.piece(" help: ");
        wanted.piece(help);
    }
}

// Does the answer say what the fault of what follows the grammar tells?
fn user_error_tells(alloc: Global, answer: &str, fault: &UserError) -> bool {
    let mut wanted = Wanted::new(answer);
    wanted.text(fault.text(alloc));
    wanted.labels(fault.labels(alloc));
    wanted.is_met() && matches!(fault.help(alloc, ""), Ok(None))
}

// Does the answer say what the first fault tells?
fn error_tells(alloc: Global, answer: &str, error: &ParseError, source: &str) -> bool {
    let mut wanted = Wanted::new(answer);
    wanted.text(error.text(alloc));
    wanted.labels(error.labels(alloc));
    find_help(&mut wanted, error.help(source));
    match error {
        ParseError::User(fault) => wanted.is_met() && user_error_tells(alloc, answer, fault),
        _ => wanted.is_met(),
    }
}

// Does the answer say what the list of faults tells?
fn errors_tell(alloc: Global, answer: &str, errors: &ParseErrors, source: &str) -> bool {
    let mut wanted = Wanted::new(answer);
    wanted.text(errors.text(alloc));
    wanted.labels(errors.labels(alloc));
    find_help(&mut wanted, errors.help(source));
    wanted.is_met()
        && errors
            .iter()
            .all(|error| error_tells(alloc, answer, error, source))
}

// Does the answer say what the error tells?
fn schema_error_tells(alloc: Global, answer: &str, error: &ParseSchemaError, source: &str) -> bool {
    let mut wanted = Wanted::new(answer);
    wanted.text(error.text(alloc));
    wanted.labels(error.labels(alloc));
    wanted.advice(error.help(alloc, source));
    wanted.is_met()
}

// Is what the line says told of its text?
fn agrees(alloc: Global, line: &str) -> bool {
    let Ok(line) = with_line_ends(alloc, line) else {
        return false;
    };
    let (answer, text) = answer_and_text(line.as_str());
    match parse_schema(alloc, text) {
        Err(error) => {
            schema_error_tells(alloc, answer, &error, text)
                && match &error {
                    ParseSchemaError::Errors(errors) => errors_tell(alloc, answer, errors, text),
                    ParseSchemaError::Memory => false,
                }
        }
        Ok(_) => false,
    }
}

#[test]
fn messages_agree_with_table(rt: HostRuntime) {
    for line in message_lines().lines() {
        assert!(rt; agrees(rt.alloc(), line), "{line}");
    }
}

// The empty place there.
fn place(start: usize) -> Option<Loc> {
    Some(Loc::new(start, start))
}

// An annotation without a value, at a place.
fn annotation(key: &str, start: usize) -> Option<Node<SrcAnnotation<'_>>> {
    match SrcWord::new(key) {
        Some(key) => {
            let key = Node::with_maybe_source_loc(key, place(start));
            let annotation = SrcAnnotation { key, value: None };
            Some(Node::with_maybe_source_loc(annotation, place(start)))
        }
        None => None,
    }
}

// The annotations with these letters as keys, each at its place.
fn annotations(alloc: Global, keys: &str) -> Result<Vec<Node<SrcAnnotation<'_>>>, AllocError> {
    let mut annotations = Vec::new(alloc);
    for (at, key) in keys.split(' ').enumerate() {
        if let Some(annotation) = annotation(key, at) {
            annotations.push(annotation)?;
        }
    }
    Ok(annotations)
}

// Does the answer say what a copy of the fault of annotations is and tells?
fn annotation_error_tells(
    alloc: Global,
    answer: &str,
    told: &str,
    error: &AnnotationError,
) -> bool {
    let mut wanted = Wanted::new(told);
    wanted.text(error.text(alloc));
    wanted.labels(error.labels(alloc));
    let mut fault_wanted = Wanted::new(answer);
    match error {
        AnnotationError::User(fault) => find_user_error(&mut fault_wanted, fault),
        AnnotationError::Memory => fault_wanted.piece("memory"),
    }
    wanted.is_met() && fault_wanted.is_met() && matches!(error.help(alloc, ""), Ok(None))
}

// Is this the first fault of the annotations, and this what its copy tells?
fn is_refused(alloc: Global, keys: &str, answer: &str, told: &str) -> bool {
    let Ok(annotations) = annotations(alloc, keys) else {
        return false;
    };
    match deduplicate_annotations(alloc, 7u8, annotations) {
        Ok(_) => false,
        Err(error) => match error.clone_in(alloc) {
            Ok(copy) => copy == error && annotation_error_tells(alloc, answer, told, &copy),
            Err(_) => false,
        },
    }
}

// Are these the keys of the annotations, in their order?
fn are_kept(alloc: Global, keys: &str, sorted: &str) -> bool {
    let Ok(annotations) = annotations(alloc, keys) else {
        return false;
    };
    let Ok(annotated) = deduplicate_annotations(alloc, 7u8, annotations) else {
        return false;
    };
    let (item, annotations) = annotated.into_parts();
    let mut wanted = Wanted::new(sorted);
    for (key, _) in annotations.as_slice() {
        wanted.piece(key.as_str());
        wanted.piece(" ");
    }
    wanted.is_met() && item == 7
}

#[test]
fn keys_of_annotations_stand_once(rt: HostRuntime) {
    let alloc = rt.alloc();
    assert!(rt; are_kept(alloc, "b a c", "a b c "));
    assert!(rt;
        is_refused(
            alloc,
            "a b c b a c",
            "twice b@1-1@3-3",
            "duplicate annotations: `b` [1..1] [3..3]"
        )
    );
    assert!(rt;
        is_refused(
            alloc,
            "x a a",
            "twice a@1-1@2-2",
            "duplicate annotations: `a` [1..1] [2..2]"
        )
    );
}

// Is this what an error tells whose cause is want of memory?
fn memory_tells(alloc: Global, wanted: &str) -> bool {
    annotation_error_tells(alloc, "memory", wanted, &AnnotationError::from(AllocError))
        && schema_error_tells(alloc, wanted, &ParseSchemaError::from(AllocError), "")
}

// Is this what is told of the kinds?
fn expects(alloc: Global, kinds: &[TokenKind], wanted: &str) -> bool {
    match expected_text(alloc, kinds) {
        Ok(text) => text.as_str() == wanted,
        Err(_) => false,
    }
}

#[test]
fn other_messages(rt: HostRuntime) {
    let alloc = rt.alloc();
    let kinds = [TokenKind::Semi, TokenKind::PathSep, TokenKind::Less];
    assert!(rt; memory_tells(alloc, "out of memory"));
    assert!(rt; expects(alloc, &kinds, "expected `;`, `::` or `<`"));
    assert!(rt; expects(alloc, &[], "expected "));
}
