// The faults of a text, found in a line piece by piece.

use crate::letters::find_kinds;
use cedar_data::Loc;
use schema_syntax_errors::{ParseError, ParseErrors, UserError};
use schema_tests_lines::Wanted;

fn find_named(wanted: &mut Wanted<'_>, word: &str, name: &str, place: Option<Loc>) {
    wanted.piece(word);
    wanted.piece(" ");
    wanted.piece(name);
    wanted.place(place);
}

fn find_numbered(wanted: &mut Wanted<'_>, word: &str, number: usize) {
    wanted.piece(word);
    wanted.piece(" ");
    wanted.number(number);
}

/// The fault of what follows the grammar is found next.
pub fn find_user_error(wanted: &mut Wanted<'_>, fault: &UserError) {
    match fault {
        UserError::EmptyList(list) => {
            wanted.piece("empty");
            wanted.place(list.loc);
        }
        UserError::StringEscape(faults) => {
            find_numbered(wanted, "escape", faults.node.first().at);
            wanted.place(faults.loc);
        }
        UserError::ReservedIdentifierUsed(word) => {
            find_named(wanted, "reserved", word.node.as_str(), word.loc);
        }
        UserError::DuplicateAnnotations(key, first, second) => {
            find_named(wanted, "twice", key.as_str(), first.loc);
            wanted.place(second.loc);
        }
    }
}

fn find_error(wanted: &mut Wanted<'_>, error: &ParseError) {
    match error {
        ParseError::InvalidToken { location } => find_numbered(wanted, "invalid", *location),
        ParseError::UnrecognizedEof { location, expected } => {
            find_numbered(wanted, "end", *location);
            wanted.piece(" ");
            find_kinds(wanted, expected.as_slice());
        }
        ParseError::UnrecognizedToken {
            start,
            token,
            end,
            expected,
        } => {
            find_numbered(wanted, "token", *start);
            wanted.piece("-");
            wanted.number(*end);
            wanted.piece(" ");
            wanted.piece(token.as_str());
            wanted.piece(" ");
            find_kinds(wanted, expected.as_slice());
        }
        ParseError::ExtraToken { .. } => wanted.piece("extra"),
        ParseError::User(fault) => find_user_error(wanted, fault),
    }
}

/// The faults are found next, with all that they tell.
pub fn find_errors(wanted: &mut Wanted<'_>, errors: &ParseErrors) {
    for error in errors.iter() {
        find_error(wanted, error);
    }
}
