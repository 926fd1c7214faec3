// The trees and the faults of texts, and of their copies, against tables.

use crate::error_lines::find_errors;
use crate::fault_table::{syntax_fault_lines, user_fault_lines};
use crate::tree_lines::find_tree;
use crate::tree_table::{long_tree_lines, tree_lines};
use cedar_data::{CloneIn, Node, Text};
use schema_syntax::{ParseSchemaError, parse_schema};
use schema_syntax_tree::{Decl, Declaration, EntityDecl, Path, Schema};
use schema_tests_lines::{Wanted, answer_and_text, with_line_ends};
use std::alloc::{AllocError, Global};

// Does the answer say this tree?
fn says_tree(alloc: Global, answer: &str, schema: &Schema<'_>) -> bool {
    let mut wanted = Wanted::new(answer);
    find_tree(alloc, &mut wanted, schema);
    wanted.is_met()
}

// Does the answer say these faults?
fn says_fault(answer: &str, error: &ParseSchemaError) -> bool {
    let mut wanted = Wanted::new(answer);
    match error {
        ParseSchemaError::Errors(errors) => find_errors(&mut wanted, errors),
        ParseSchemaError::Memory => wanted.piece("memory"),
    }
    wanted.is_met()
}

// Does the answer say the copy of the tree?
fn says_copied_tree(alloc: Global, answer: &str, schema: Schema<'_>) -> bool {
    let copy = schema.clone_in(alloc);
    drop(schema);
    match copy {
        Ok(copy) => says_tree(alloc, answer, &copy),
        Err(_) => false,
    }
}

// Does the answer say the copy of the faults?
fn says_copied_fault(alloc: Global, answer: &str, error: ParseSchemaError) -> bool {
    let copy = error.clone_in(alloc);
    drop(error);
    match copy {
        Ok(copy) => says_fault(answer, &copy),
        Err(_) => false,
    }
}

// Is what the line says found in its text?
fn agrees(alloc: Global, line: &str) -> bool {
    let Ok(line) = with_line_ends(alloc, line) else {
        return false;
    };
    let (answer, text) = answer_and_text(line.as_str());
    match parse_schema(alloc, text) {
        Ok(schema) => says_tree(alloc, answer, &schema) && says_copied_tree(alloc, answer, schema),
        Err(error) => says_fault(answer, &error) && says_copied_fault(alloc, answer, error),
    }
}

#[test]
fn trees_agree_with_table(rt: HostRuntime) {
    for line in tree_lines().lines() {
        assert!(rt; agrees(rt.alloc(), line), "{line}");
    }
    for line in long_tree_lines().lines() {
        assert!(rt; agrees(rt.alloc(), line), "{line}");
    }
}

#[test]
fn faults_agree_with_table(rt: HostRuntime) {
    for line in syntax_fault_lines().lines() {
        assert!(rt; agrees(rt.alloc(), line), "{line}");
    }
    for line in user_fault_lines().lines() {
        assert!(rt; agrees(rt.alloc(), line), "{line}");
    }
}

// A type's declaration with this many types in one another, each of them opened and closed so.
fn nested(alloc: Global, count: usize, opening: &str, closing: &str) -> Result<String, AllocError> {
    let mut text = String::new(alloc);
    text.push_str("type T = ")?;
    for _ in 0..count {
        text.push_str(opening)?;
    }
    text.push_str("Long")?;
    for _ in 0..count {
        text.push_str(closing)?;
    }
    text.push_str(";")?;
    Ok(text)
}

// Have types that are nested so deeply a tree?
fn types_nest(alloc: Global, count: usize, opening: &str, closing: &str) -> bool {
    match nested(alloc, count, opening, closing) {
        Ok(text) => parse_schema(alloc, text.as_str()).is_ok(),
        Err(_) => false,
    }
}

#[test]
fn types_nest_deeply(rt: HostRuntime) {
    assert!(rt; types_nest(rt.alloc(), 500, "Set<", ">"));
    assert!(rt; types_nest(rt.alloc(), 500, "{a: ", "}"));
}

// Is this the text of the path?
fn is_path(alloc: Global, path: &Path<'_>, wanted: &str) -> bool {
    match path.text(alloc) {
        Ok(text) => text.as_str() == wanted,
        Err(_) => false,
    }
}

// Are these the names, with their places?
fn are_names(names: Result<Vec<Node<Text>>, AllocError>, wanted: &str) -> bool {
    let mut wanted = Wanted::new(wanted);
    match names {
        Ok(names) => {
            for name in &names {
                wanted.piece(name.node.as_str());
                wanted.place(name.loc);
            }
            wanted.is_met()
        }
        Err(_) => false,
    }
}

// Are these the names of the declaration, or of the first parent of its entity types?
fn is_named(alloc: Global, declaration: &Declaration<'_>, wanted: &str) -> bool {
    match declaration {
        Declaration::Entity(EntityDecl::Standard(entity)) => {
            entity
                .member_of_types
                .as_slice()
                .iter()
                .all(|path| is_path(alloc, path, wanted))
        }
        Declaration::Entity(_) => false,
        Declaration::Action(action) => are_names(action.get().names(alloc), wanted),
        Declaration::Common(common) => are_names(common.names(alloc), wanted),
    }
}

// Has the text one declaration, with these names?
fn declares(alloc: Global, text: &str, wanted: &str) -> bool {
    let Ok(schema) = parse_schema(alloc, text) else {
        return false;
    };
    match schema.as_slice() {
        [namespace] => match namespace.item.decls.as_slice() {
            [decl] => is_named(alloc, &decl.item.node, wanted),
            _ => false,
        },
        _ => false,
    }
}

#[test]
fn paths_and_declarations_have_texts(rt: HostRuntime) {
    assert!(rt; declares(rt.alloc(), "entity A in B::C;", "B::C"));
    assert!(rt; declares(rt.alloc(), "type T = Long;", "T@5-6"));
    assert!(rt;
        declares(
            rt.alloc(),
            "external action \"a b\", c;",
            "a b@16-21c@23-24"
        )
    );
}
