ghost use Rattle.std.specs.Prelude.{◌≡◌, ◌<◌, ◌∷◌, [], length, IfSome, IfNone};
ghost use Rattle.std.specs.Option.{option_copied};
ghost use Rattle.cedar_data.specs.NonEmpty.{items_left, items_to_come};
ghost use Rattle.schema_syntax_errors.specs.FaultTexts.{first_error_text};
ghost use Rattle.schema_syntax_errors.specs.FaultHelps.{first_error_help};
ghost use Rattle.schema_syntax_errors.specs.FaultLabels.{first_error_labels, primary_span};

use crate::parse_error::ParseError;
use cedar_data::{
    CloneIn, Diagnostic, Label, Loc, NonEmpty, NonEmptyIntoIter, NonEmptyIter, Severity, Text,
};
use std::alloc::{AllocError, Global};

/// The faults of a text, at least one. They speak by the first.
#[derive(PartialEq, Eq)]
pub struct ParseErrors {
    /// The faults, in order.
    pub errors: NonEmpty<ParseError>,
}

impl Drop for ParseErrors {
    fn drop(self) {
        let ParseErrors { errors: _errors } = self;
    }
}

impl ParseErrors {
    /// These faults in order, which takes no memory.
    pub fn new(first: ParseError, tail: Vec<ParseError>) -> ParseErrors
        ensures { result.errors ≡ first ∷ tail.items }
    {
        ParseErrors {
            errors: NonEmpty::from_parts(first, tail),
        }
    }

    /// These faults in order, and `None` exactly where there is none. It takes no memory.
    pub fn from_iter(v: Vec<ParseError>) -> Option<ParseErrors>
        ensures none { IfNone result (v.items ≡ []) }
        ensures some { IfSome result (λ faults. (faults.errors ≡ v.items) × (0 < length faults.errors)) }
    {
        let errors = NonEmpty::from_vec(v)?;
        Some(ParseErrors { errors })
    }

    /// The faults in order.
    pub fn iter(&self) -> NonEmptyIter<'_, ParseError>
        ensures { items_left result ≡ self.now.errors }
    {
        self.errors.iter()
    }

    /// The faults, handed over in order.
    pub fn into_iter(self) -> NonEmptyIntoIter<ParseError>
        ensures { items_to_come result ≡ self.errors }
    {
        let ParseErrors { errors } = self;
        errors.into_iter()
    }

    /// The place of the first label.
    pub fn primary_source_span(&self) -> Option<Loc>
        ensures first_label { result ≡ primary_span (first_error_labels self.now.errors) }
    {
        self.errors.first().primary_source_span()
    }

    /// Advice on the source in which the first fault is.
    pub fn help(&self, source: &str) -> Option<&'static str>
        ensures help { option_copied result ≡ first_error_help self.now.errors source.now }
    {
        self.errors.first().help(source)
    }
}

impl Diagnostic for ParseErrors {
    ghost text = { λ e. first_error_text e.errors };

    ghost help = { λ e source. first_error_help e.errors source };

    ghost labels = { λ e. first_error_labels e.errors };

    fn text(&self, alloc: Global) -> Result<Text, AllocError> {
        self.errors.first().text(alloc)
    }

    fn help(&self, alloc: Global, source: &str) -> Result<Option<Text>, AllocError> {
        Diagnostic::help(self.errors.first(), alloc, source)
    }

    fn labels(&self, alloc: Global) -> Result<Vec<Label>, AllocError> {
        self.errors.first().labels(alloc)
    }

    fn severity(&self) -> Severity {
        self.errors.first().severity()
    }
}

impl CloneIn for ParseErrors {
    fn clone_in(&self, alloc: Global) -> Result<Self, AllocError> {
        Ok(ParseErrors {
            errors: self.errors.clone_in(alloc)?,
        })
    }
}
