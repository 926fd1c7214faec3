// Calls that take memory on warnings, paths, types, actions and refused names.

use cedar_data::{CloneIn, Diagnostic, Label, Loc, Node, Text};
use cedar_identifiers::{InternalName, NameText, RawName, UnreservedId};
use schema_convert::{
    SchemaWarning, ShadowsBuiltinWarning, ShadowsEntityWarning, cedar_type_to_json_type,
    path_to_internal_name, path_to_raw_name,
};
use schema_json::{
    ActionEntityUID, ReservedCommonTypeBasenameError, ReservedNameError, Type, action_name,
};
use schema_syntax_tree::{Path, SrcId};
use schema_tests_lines::{Wanted, says, text};
use std::alloc::{AllocError, Global};

// Is there no advice?
fn is_silent(help: Result<Option<Text>, AllocError>) -> bool {
    matches!(help, Ok(None))
}

// Are these the places that are pointed to, where nothing is said?
fn points(labels: Result<Vec<Label>, AllocError>, wanted: &str) -> bool {
    let mut wanted = Wanted::new(wanted);
    match labels {
        Ok(labels) => {
            for label in &labels {
                wanted.place(Some(label.span));
                if label.text.is_some() {
                    wanted.piece("?");
                }
            }
            wanted.is_met()
        }
        Err(_) => false,
    }
}

const BUILTIN: &str =
    "The name `String` shadows a builtin Cedar name. You'll have to refer to the builtin as `__cedar::String`.";

const ENTITY: &str = "The common type name A shadows an entity name";

// Does the warning that a name is builtin say so?
fn warns_of_builtin(alloc: Global) -> bool {
    let warning = ShadowsBuiltinWarning {
        name: text(alloc, "String"),
        loc: Some(Loc::new(7, 13)),
    };
    says(warning.text(alloc), BUILTIN)
        && points(warning.labels(alloc), "@7-13")
        && is_silent(warning.help(alloc, ""))
        && whole_warns(
            alloc,
            &SchemaWarning::ShadowsBuiltin(warning),
            BUILTIN,
            "@7-13",
        )
}

// Does the warning that a name is one of an entity type say so?
fn warns_of_entity(alloc: Global) -> bool {
    let warning = ShadowsEntityWarning {
        name: text(alloc, "A"),
        entity_loc: Some(Loc::new(1, 2)),
        common_loc: Some(Loc::new(3, 4)),
    };
    says(warning.text(alloc), ENTITY)
        && points(warning.labels(alloc), "@1-2@3-4")
        && is_silent(warning.help(alloc, ""))
        && whole_warns(
            alloc,
            &SchemaWarning::ShadowsEntity(warning),
            ENTITY,
            "@1-2@3-4",
        )
}

// Does the warning, of either kind, say so?
fn whole_warns(alloc: Global, warning: &SchemaWarning, wanted: &str, places: &str) -> bool {
    says(warning.text(alloc), wanted)
        && points(warning.labels(alloc), places)
        && is_silent(warning.help(alloc, ""))
}

#[test]
fn warnings_have_messages(rt: HostRuntime) {
    assert!(rt; warns_of_builtin(rt.alloc()));
    assert!(rt; warns_of_entity(rt.alloc()));
}

// The path of this one word; nothing where it is none.
fn path(alloc: Global, word: &str) -> Option<Path<'_>> {
    match SrcId::new(word) {
        Some(id) => Some(Path::single(alloc, id, Some(Loc::new(2, 3)))),
        None => None,
    }
}

// Is the path the name of this text, as written and with all its components?
fn is_name(alloc: Global, word: &str) -> bool {
    match (path(alloc, word), path(alloc, word)) {
        (Some(path), Some(other)) => {
            let raw = path_to_raw_name(alloc, path);
            let full = path_to_internal_name(alloc, other);
            match (raw, full) {
                (Ok(raw), Ok(full)) => says(raw.text(alloc), word) && says(full.text(alloc), word),
                _ => false,
            }
        }
        _ => false,
    }
}

// Is a type by a name the type that refers to it, once?
fn is_reference(alloc: Global, word: &str) -> bool {
    let Some(path) = path(alloc, word) else {
        return false;
    };
    let ty = Node::with_maybe_source_loc(schema_syntax_tree::Type::Ident(path), None);
    match cedar_type_to_json_type(alloc, ty) {
        Ok(ty) => refers_once(alloc, &ty, word),
        Err(_) => false,
    }
}

// Is this the one name that the type refers to?
fn refers_once(alloc: Global, ty: &Type<RawName>, word: &str) -> bool {
    match ty.common_type_references(alloc) {
        Ok(names) => match names.as_slice() {
            [name] => says(name.text(alloc), word),
            _ => false,
        },
        Err(_) => false,
    }
}

#[test]
fn paths_and_types_are_translated(rt: HostRuntime) {
    assert!(rt; is_name(rt.alloc(), "A"));
    assert!(rt; is_reference(rt.alloc(), "A"));
}

// Is this the text of the action by an id alone, and this of it in the namespace?
fn qualifies(alloc: Global, id: &str, bare: &str, full: &str) -> bool {
    let Ok(namespace) = InternalName::from_normalized_str(alloc, "N") else {
        return false;
    };
    let action = ActionEntityUID::default_type(text(alloc, id));
    if !says(action.text(alloc), bare) {
        return false;
    }
    match action.qualify_with(alloc, Some(&namespace)) {
        Ok(action) => says(action.text(alloc), full),
        Err(_) => false,
    }
}

// Is this the text of the name of the type of actions?
fn action_is_named(alloc: Global, wanted: &str) -> bool {
    match action_name(alloc) {
        Ok(name) => says(name.text(alloc), wanted),
        Err(_) => false,
    }
}

#[test]
fn actions_have_texts(rt: HostRuntime) {
    let alloc = rt.alloc();
    assert!(rt;
        qualifies(
            alloc,
            "a \"b\"",
            "Action::\"a \\\"b\\\"\"",
            "N::Action::\"a \\\"b\\\"\""
        )
    );
    assert!(rt; action_is_named(alloc, "Action"));
}

// Does a copy of the refusal of the word say so?
fn word_is_refused(alloc: Global, word: &str, wanted: &str) -> bool {
    let Ok(id) = UnreservedId::from_normalized_str(alloc, word) else {
        return false;
    };
    match (ReservedCommonTypeBasenameError { id }).clone_in(alloc) {
        Ok(copy) => {
            says(copy.text(alloc), wanted)
                && points(copy.labels(alloc), "")
                && is_silent(copy.help(alloc, ""))
        }
        Err(_) => false,
    }
}

// Does a copy of the refusal of the name have the name?
fn name_is_refused(alloc: Global, name: &str) -> bool {
    match InternalName::from_normalized_str(alloc, name) {
        Ok(internal) => match (ReservedNameError { name: internal }).clone_in(alloc) {
            Ok(copy) => says(copy.name.text(alloc), name),
            Err(_) => false,
        },
        Err(_) => false,
    }
}

#[test]
fn refused_names_are_told(rt: HostRuntime) {
    let wanted = "this is reserved and cannot be the basename of a common-type declaration: Set";
    assert!(rt; word_is_refused(rt.alloc(), "Set", wanted));
    assert!(rt; name_is_refused(rt.alloc(), "__cedar::Action"));
}
