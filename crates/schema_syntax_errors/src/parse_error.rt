ghost use Rattle.std.specs.Prelude.{◌≡◌, IfOk};
ghost use Rattle.std.specs.Option.{option_copied};
ghost use Rattle.schema_syntax_errors.specs.FaultTexts.{parse_error_text};
ghost use Rattle.schema_syntax_errors.specs.FaultHelps.{parse_error_help};
ghost use Rattle.schema_syntax_errors.specs.FaultLabels.{parse_error_labels, primary_span};

use crate::help::help_on_token;
use crate::labels::{bare_label, expected_label, place};
use crate::user_error::UserError;
use cedar_data::{CloneIn, Diagnostic, Label, List, Loc, Severity, Text, around, message};
use schema_syntax_grammar::TokenKind;
use std::alloc::{AllocError, Global};

/// Why a text is no schema. The places are byte offsets.
#[derive(PartialEq, Eq)]
pub enum ParseError {
    /// No token stands at this place.
    InvalidToken {
        location: usize,
    },
    /// The text ends where these kinds of tokens may come.
    UnrecognizedEof {
        location: usize,
        expected: List<TokenKind>,
    },
    /// This token stands where these kinds of tokens may come.
    UnrecognizedToken {
        start: usize,
        token: Text,
        end: usize,
        expected: List<TokenKind>,
    },
    /// This token stands behind the end of a schema.
    ExtraToken {
        start: usize,
        token: Text,
        end: usize,
    },
    /// The text follows the grammar, and has what it may not have.
    User(UserError),
}

impl Drop for ParseError {
    fn drop(self) {
        match self {
            ParseError::InvalidToken {
                location: _location,
            } => {}
            ParseError::UnrecognizedEof {
                location: _location,
                expected: _expected,
            } => {}
            ParseError::UnrecognizedToken {
                start: _start,
                token: _token,
                end: _end,
                expected: _expected,
            } => {}
            ParseError::ExtraToken {
                start: _start,
                token: _token,
                end: _end,
            } => {}
            ParseError::User(_value) => {}
        }
    }
}

impl ParseError {
    /// The place of the first label.
    pub fn primary_source_span(&self) -> Option<Loc>
        ensures first_label { result ≡ primary_span (parse_error_labels self.now) }
    {
        match self {
            ParseError::InvalidToken { location } => Some(place(*location, *location)),
            ParseError::UnrecognizedEof { location, .. } => Some(place(*location, *location)),
            ParseError::UnrecognizedToken { start, end, .. } => Some(place(*start, *end)),
            ParseError::ExtraToken { start, end, .. } => Some(place(*start, *end)),
            ParseError::User(fault) => fault.primary_source_span(),
        }
    }

    /// Advice on the source in which the fault is.
    pub fn help(&self, source: &str) -> Option<&'static str>
        ensures help { option_copied result ≡ parse_error_help self.now source.now }
    {
        match self {
            ParseError::UnrecognizedToken {
                start,
                token,
                expected,
                ..
            } => help_on_token(*start, token, expected.as_slice(), source),
            _ => None,
        }
    }
}

impl Diagnostic for ParseError {
    ghost text = { parse_error_text };

    ghost help = { parse_error_help };

    ghost labels = { parse_error_labels };

    fn text(&self, alloc: Global) -> Result<Text, AllocError> {
        match self {
            ParseError::InvalidToken { .. } => message(alloc, "invalid token"),
            ParseError::UnrecognizedEof { .. } => message(alloc, "unexpected end of input"),
            ParseError::UnrecognizedToken { token, .. } => {
                around(alloc, "unexpected token `", token, "`")
            }
            ParseError::ExtraToken { token, .. } => around(alloc, "extra token `", token, "`"),
            ParseError::User(fault) => fault.text(alloc),
        }
    }

    fn help(&self, alloc: Global, source: &str) -> Result<Option<Text>, AllocError> {
        match self.help(source) {
            Some(help) => Ok(Some(Text::from_str(alloc, help)?)),
            None => Ok(None),
        }
    }

    fn labels(&self, alloc: Global) -> Result<Vec<Label>, AllocError> {
        match self {
            ParseError::InvalidToken { location } => {
                bare_label(alloc, Some(place(*location, *location)))
            }
            ParseError::UnrecognizedEof { location, expected } => {
                expected_label(alloc, place(*location, *location), expected.as_slice())
            }
            ParseError::UnrecognizedToken {
                start,
                end,
                expected,
                ..
            } => expected_label(alloc, place(*start, *end), expected.as_slice()),
            ParseError::ExtraToken { start, end, .. } => {
                bare_label(alloc, Some(place(*start, *end)))
            }
            ParseError::User(fault) => fault.labels(alloc),
        }
    }

    fn severity(&self) -> Severity {
        Severity::Error
    }
}

impl CloneIn for ParseError {
    fn clone_in(&self, alloc: Global) -> Result<Self, AllocError> {
        match self {
            ParseError::InvalidToken { location } => Ok(ParseError::InvalidToken {
                location: *location,
            }),
            ParseError::UnrecognizedEof { location, expected } => Ok(ParseError::UnrecognizedEof {
                location: *location,
                expected: copy_of(alloc, expected)?,
            }),
            ParseError::UnrecognizedToken {
                start,
                token,
                end,
                expected,
            } => Ok(ParseError::UnrecognizedToken {
                start: *start,
                token: token.clone_in(alloc)?,
                end: *end,
                expected: copy_of(alloc, expected)?,
            }),
            ParseError::ExtraToken { start, token, end } => Ok(ParseError::ExtraToken {
                start: *start,
                token: token.clone_in(alloc)?,
                end: *end,
            }),
            ParseError::User(fault) => Ok(ParseError::User(fault.clone_in(alloc)?)),
        }
    }
}

// A copy of the kinds.
fn copy_of(alloc: Global, kinds: &List<TokenKind>) -> Result<List<TokenKind>, AllocError>
    ensures { IfOk result (λ copy. copy ≡ kinds.now) }
{
    Ok(List::from_vec(Vec::from_slice(alloc, kinds.as_slice())?))
}
