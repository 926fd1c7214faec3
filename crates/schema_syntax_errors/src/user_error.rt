ghost use Rattle.std.specs.Prelude.{◌≡◌};
ghost use Rattle.schema_syntax_errors.specs.FaultTexts.{user_error_text};
ghost use Rattle.schema_syntax_errors.specs.FaultLabels.{user_error_labels, primary_span};
ghost use Rattle.schema_syntax_errors.specs.SameFaults.{user_errors_agree, user_errors_per, user_errors_equiv};

use crate::labels::{bare_label, bare_labels};
use crate::unescape_error::UnescapeError;
use cedar_data::{
    CloneIn, Diagnostic, Label, Loc, Node, NonEmpty, Severity, Text, around, message,
};
use cedar_identifiers::AnyId;
use std::alloc::{AllocError, Global};

/// What a text that follows the grammar still may not have.
pub enum UserError {
    /// A list without an item where one has to stand, from bracket to bracket.
    EmptyList(Node<()>),
    /// A string whose escapes are not all lawful.
    StringEscape(Node<NonEmpty<UnescapeError>>),
    /// A reserved word in the place of a name.
    ReservedIdentifierUsed(Node<Text>),
    /// An annotation key that stands twice on one item, with the place where it stood before and its own.
    DuplicateAnnotations(AnyId, Node<()>, Node<()>),
}

impl Drop for UserError {
    fn drop(self) {
        match self {
            UserError::EmptyList(_value) => {}
            UserError::StringEscape(_value) => {}
            UserError::ReservedIdentifierUsed(_value) => {}
            UserError::DuplicateAnnotations(_value0, _value1, _value2) => {}
        }
    }
}

impl UserError {
    /// The place of the first label.
    pub(crate) fn primary_source_span(&self) -> Option<Loc>
        ensures first_label { result ≡ primary_span (user_error_labels self.now) }
    {
        match self {
            UserError::EmptyList(place) => place.loc,
            UserError::StringEscape(faults) => faults.loc,
            UserError::ReservedIdentifierUsed(word) => word.loc,
            UserError::DuplicateAnnotations(_, first, second) => first.loc.or(second.loc),
        }
    }
}

impl Diagnostic for UserError {
    ghost text = { user_error_text };

    ghost labels = { user_error_labels };

    fn text(&self, alloc: Global) -> Result<Text, AllocError> {
        match self {
            UserError::EmptyList(_) => message(alloc, "An empty list was passed"),
            UserError::StringEscape(_) => message(alloc, "Invalid escape codes"),
            UserError::ReservedIdentifierUsed(word) => {
                around(alloc, "`", &word.node, "` is a reserved identifier")
            }
            UserError::DuplicateAnnotations(key, _, _) => {
                around(alloc, "duplicate annotations: `", &key.text, "`")
            }
        }
    }

    fn help(&self, _alloc: Global, _source: &str) -> Result<Option<Text>, AllocError> {
        Ok(None)
    }

    fn labels(&self, alloc: Global) -> Result<Vec<Label>, AllocError> {
        match self {
            UserError::EmptyList(place) => bare_label(alloc, place.loc),
            UserError::StringEscape(faults) => bare_label(alloc, faults.loc),
            UserError::ReservedIdentifierUsed(word) => bare_label(alloc, word.loc),
            UserError::DuplicateAnnotations(_, first, second) => {
                bare_labels(alloc, first.loc, second.loc)
            }
        }
    }

    fn severity(&self) -> Severity {
        Severity::Error
    }
}

impl PartialEq for UserError {
    ghost eq = { user_errors_agree };

    ghost laws = { user_errors_per };

    fn eq(&self, other: &UserError) -> bool {
        match (self, other) {
            (UserError::EmptyList(a), UserError::EmptyList(b)) => a.loc == b.loc,
            (UserError::StringEscape(a), UserError::StringEscape(b)) => {
                a.node == b.node && a.loc == b.loc
            }
            (UserError::ReservedIdentifierUsed(a), UserError::ReservedIdentifierUsed(b)) => {
                a.node == b.node && a.loc == b.loc
            }
            (
                UserError::DuplicateAnnotations(a, a_first, a_second),
                UserError::DuplicateAnnotations(b, b_first, b_second),
            ) => a == b && a_first.loc == b_first.loc && a_second.loc == b_second.loc,
            _ => false,
        }
    }
}

impl Eq for UserError {
    ghost laws = { user_errors_equiv };
}

impl CloneIn for UserError {
    fn clone_in(&self, alloc: Global) -> Result<Self, AllocError> {
        match self {
            UserError::EmptyList(place) => Ok(UserError::EmptyList(copy_of(place))),
            UserError::StringEscape(faults) => {
                Ok(UserError::StringEscape(faults.clone_in(alloc)?))
            }
            UserError::ReservedIdentifierUsed(word) => {
                Ok(UserError::ReservedIdentifierUsed(word.clone_in(alloc)?))
            }
            UserError::DuplicateAnnotations(key, first, second) => Ok(
                UserError::DuplicateAnnotations(
                    key.clone_in(alloc)?,
                    copy_of(first),
                    copy_of(second),
                ),
            ),
        }
    }
}

// A copy of the place.
fn copy_of(place: &Node<()>) -> Node<()>
    ensures { result ≡ place.now }
{
    Node {
        node: (),
        loc: place.loc,
    }
}
