// What errors of resolution tell. A place of 0 stands for no place.

use cedar_data::{Diagnostic, Label, Loc, NonEmpty, Text};
use cedar_identifiers::{ConditionalName, RawName, ReferenceType};
use schema_json::ActionEntityUID;
use schema_resolve::{ActionNotDefinedError, ResolveError, TypeNotDefinedError};
use schema_tests_lines::{Wanted, answer_and_text};
use std::alloc::{AllocError, Global};

// What is told, then behind `|` the types as they are written, each with its place. The lines were written by hand,
// from the wording of the messages.
const TYPES: &str = "\
failed to resolve type: X at 14|X@14
failed to resolve types: X, N::Y at 14 at 20|X@14 N::Y@20
failed to resolve types: Z, X, N::Y at 25 at 19 at 12|Z@25 X@19 N::Y@12
failed to resolve types: X, X, X at 1 at 2|X@1 X@0 X@2
failed to resolve type: __cedar::X|__cedar::X@0
";

// What is told, then behind `|` the actions, each with the place of its type and the letter that is its id.
const ACTIONS: &str = "\
undeclared action: X::\"b\" at 22|X@22=b
undeclared actions: Action::\"d\" and X::\"b\" at 28|Action@0=d X@28=b
undeclared actions: Action::\"\\'\", X::\"b\", and N::Action::\"c\" at 40 at 48|Action@0=' X@40=b N::Action@48=c
undeclared action: Action::\"\\\\\"|Action@0=\\
";

const ADVICE: &str = "any actions appearing as parents need to be declared as actions";

// The text is found next.
fn find_text(wanted: &mut Wanted<'_>, text: Result<Text, AllocError>) {
    match text {
        Ok(text) => wanted.piece(text.as_str()),
        Err(_) => wanted.piece("?"),
    }
}

// The places are found next, where nothing is said.
fn find_labels(wanted: &mut Wanted<'_>, labels: Result<Vec<Label>, AllocError>) {
    match labels {
        Ok(labels) => {
            for label in &labels {
                wanted.piece(" at ");
                wanted.number(label.span.start);
            }
        }
        Err(_) => wanted.piece("?"),
    }
}

// Is this the advice?
fn advises(help: Result<Option<Text>, AllocError>, wanted: Option<&str>) -> bool {
    match help {
        Ok(Some(help)) => wanted == Some(help.as_str()),
        Ok(None) => wanted.is_none(),
        Err(_) => false,
    }
}

// Does the error tell what the answer says?
fn tells(alloc: Global, answer: &str, error: &ResolveError, advice: Option<&str>) -> bool {
    let mut wanted = Wanted::new(answer);
    find_text(&mut wanted, error.text(alloc));
    find_labels(&mut wanted, error.labels(alloc));
    wanted.is_met() && advises(error.help(alloc, ""), advice)
}

// Does the error of types tell what the answer says?
fn types_tell(alloc: Global, answer: &str, error: TypeNotDefinedError) -> bool {
    let mut wanted = Wanted::new(answer);
    find_text(&mut wanted, error.text(alloc));
    find_labels(&mut wanted, error.labels(alloc));
    wanted.is_met()
        && advises(error.help(alloc, ""), None)
        && tells(alloc, answer, &ResolveError::TypeNotDefined(error), None)
}

// Does the error of actions tell what the answer says?
fn actions_tell(alloc: Global, answer: &str, error: ActionNotDefinedError) -> bool {
    let mut wanted = Wanted::new(answer);
    find_text(&mut wanted, error.text(alloc));
    find_labels(&mut wanted, error.labels(alloc));
    wanted.is_met()
        && advises(error.help(alloc, ""), Some(ADVICE))
        && tells(
            alloc,
            answer,
            &ResolveError::ActionNotDefined(error),
            Some(ADVICE),
        )
}

// The place that the digits say, where there is one.
fn place(digits: &str) -> Option<Loc> {
    match digits.parse::<usize>() {
        Ok(at) if at > 0 => Some(Loc::new(at, at)),
        _ => None,
    }
}

// A reference to a type, written as its text, `@` and its place.
fn reference(alloc: Global, written: &str) -> Option<ConditionalName> {
    let (text, digits) = written.split_once('@').unwrap_or(("", ""));
    match RawName::from_normalized_str(alloc, text) {
        Ok(mut raw) => {
            raw.name.loc = place(digits);
            raw.conditionally_qualify_with(alloc, None, ReferenceType::Entity)
                .ok()
        }
        Err(_) => None,
    }
}

// The errors of the types that are written so, each of one.
fn errors_of_types(alloc: Global, types: &str) -> Result<Vec<TypeNotDefinedError>, AllocError> {
    let mut errors = Vec::new(alloc);
    for written in types.split(' ') {
        if let Some(name) = reference(alloc, written) {
            let undefined_types = NonEmpty::new(alloc, name);
            errors.push(TypeNotDefinedError { undefined_types })?;
        }
    }
    Ok(errors)
}

// The error of an action, written as its type, `=` and its id.
fn error_of_action(alloc: Global, written: &str) -> Option<ActionNotDefinedError> {
    let (ty, id) = written.split_once('=').unwrap_or(("", ""));
    match (reference(alloc, ty), Text::from_str(alloc, id)) {
        (Some(ty), Ok(id)) => {
            let uid = ActionEntityUID::with_type(ty, id);
            Some(ActionNotDefinedError(NonEmpty::new(alloc, uid)))
        }
        _ => None,
    }
}

// The errors of the actions that are written so, each of one.
fn errors_of_actions(
    alloc: Global,
    actions: &str,
) -> Result<Vec<ActionNotDefinedError>, AllocError> {
    let mut errors = Vec::new(alloc);
    for written in actions.split(' ') {
        if let Some(error) = error_of_action(alloc, written) {
            errors.push(error)?;
        }
    }
    Ok(errors)
}

// Does the error of all the line's types tell what the line says?
fn types_agree(alloc: Global, line: &str) -> bool {
    let (answer, types) = answer_and_text(line);
    match errors_of_types(alloc, types) {
        Ok(errors) => match NonEmpty::from_vec(errors) {
            Some(errors) => match TypeNotDefinedError::join_nonempty(alloc, errors) {
                Ok(error) => types_tell(alloc, answer, error),
                Err(_) => false,
            },
            None => false,
        },
        Err(_) => false,
    }
}

// Does the error of all the line's actions tell what the line says?
fn actions_agree(alloc: Global, line: &str) -> bool {
    let (answer, actions) = answer_and_text(line);
    match errors_of_actions(alloc, actions) {
        Ok(errors) => match NonEmpty::from_vec(errors) {
            Some(errors) => match ActionNotDefinedError::join_nonempty(alloc, errors) {
                Ok(error) => actions_tell(alloc, answer, error),
                Err(_) => false,
            },
            None => false,
        },
        Err(_) => false,
    }
}

#[test]
fn errors_have_messages(rt: HostRuntime) {
    for line in TYPES.lines() {
        assert!(rt; types_agree(rt.alloc(), line), "{line}");
    }
    for line in ACTIONS.lines() {
        assert!(rt; actions_agree(rt.alloc(), line), "{line}");
    }
    assert!(rt;
        tells(
            rt.alloc(),
            "out of memory",
            &ResolveError::from(AllocError),
            None
        )
    );
}
