ghost use Rattle.std.specs.Prelude.{◌≡◌, [], ◌∷◌};
ghost use Rattle.cedar_data.specs.NonEmpty.{items_left, items_to_come};
ghost use Rattle.schema_convert_errors.specs.ErrorTexts.{first_fault_text, failure_text, text_failure_text};
ghost use Rattle.schema_convert_errors.specs.ErrorPlaces.{first_fault_help, failure_help, text_failure_help};
ghost use Rattle.schema_convert_errors.specs.ErrorPlaces.{first_fault_labels, failure_labels, text_failure_labels};

use crate::errors::ToJsonSchemaError;
use cedar_data::{
    CloneIn, Diagnostic, Label, NonEmpty, NonEmptyIntoIter, NonEmptyIter, Severity, Text, message,
};
use schema_syntax_errors::ParseErrors;
use std::alloc::{AllocError, Global};

/// What keeps a tree from being a fragment: at least one fault, in order.
#[derive(PartialEq, Eq)]
pub struct ToJsonSchemaErrors {
    /// The faults, in order.
    pub errors: NonEmpty<ToJsonSchemaError>,
}

impl Drop for ToJsonSchemaErrors {
    fn drop(self) {
        let ToJsonSchemaErrors { errors: _errors } = self;
    }
}

impl ToJsonSchemaErrors {
    /// The list of these faults.
    pub fn new(errs: NonEmpty<ToJsonSchemaError>) -> ToJsonSchemaErrors
        ensures { result.errors ≡ errs }
    {
        ToJsonSchemaErrors { errors: errs }
    }

    /// The list of this one fault, which takes no memory.
    pub fn from_one(alloc: Global, e: ToJsonSchemaError) -> ToJsonSchemaErrors
        ensures { result.errors ≡ e ∷ [] }
    {
        ToJsonSchemaErrors {
            errors: NonEmpty::new(alloc, e),
        }
    }

    /// The faults in order.
    pub fn iter(&self) -> NonEmptyIter<'_, ToJsonSchemaError>
        ensures { items_left result ≡ self.now.errors }
    {
        self.errors.iter()
    }

    /// The faults, handed over in order.
    pub fn into_iter(self) -> NonEmptyIntoIter<ToJsonSchemaError>
        ensures { items_to_come result ≡ self.errors }
    {
        let ToJsonSchemaErrors { errors } = self;
        errors.into_iter()
    }
}

impl Diagnostic for ToJsonSchemaErrors {
    ghost text = { λ e. first_fault_text e.errors };

    ghost help = { λ e _. first_fault_help e.errors };

    ghost labels = { λ e. first_fault_labels e.errors };

    /// What the first fault says.
    fn text(&self, alloc: Global) -> Result<Text, AllocError> {
        self.errors.first().text(alloc)
    }

    /// The advice of the first fault.
    fn help(&self, alloc: Global, source: &str) -> Result<Option<Text>, AllocError> {
        self.errors.first().help(alloc, source)
    }

    /// The places that the first fault points to, in order.
    fn labels(&self, alloc: Global) -> Result<Vec<Label>, AllocError> {
        self.errors.first().labels(alloc)
    }

    fn severity(&self) -> Severity {
        Severity::Error
    }
}

impl CloneIn for ToJsonSchemaErrors {
    fn clone_in(&self, alloc: Global) -> Result<Self, AllocError> {
        Ok(ToJsonSchemaErrors {
            errors: self.errors.clone_in(alloc)?,
        })
    }
}

/// Why a tree was not made a fragment.
#[derive(PartialEq, Eq, Drop)]
pub enum ToJsonSchemaFailure {
    /// The tree has these faults.
    Errors(ToJsonSchemaErrors),
    /// Out of memory.
    Memory,
}

impl Diagnostic for ToJsonSchemaFailure {
    ghost text = { failure_text };

    ghost help = { λ e _. failure_help e };

    ghost labels = { failure_labels };

    fn text(&self, alloc: Global) -> Result<Text, AllocError> {
        match self {
            ToJsonSchemaFailure::Errors(errors) => errors.text(alloc),
            ToJsonSchemaFailure::Memory => message(alloc, "out of memory"),
        }
    }

    fn help(&self, alloc: Global, source: &str) -> Result<Option<Text>, AllocError> {
        match self {
            ToJsonSchemaFailure::Errors(errors) => errors.help(alloc, source),
            ToJsonSchemaFailure::Memory => Ok(None),
        }
    }

    fn labels(&self, alloc: Global) -> Result<Vec<Label>, AllocError> {
        match self {
            ToJsonSchemaFailure::Errors(errors) => errors.labels(alloc),
            ToJsonSchemaFailure::Memory => Ok(Vec::new(alloc)),
        }
    }

    fn severity(&self) -> Severity {
        Severity::Error
    }
}

impl CloneIn for ToJsonSchemaFailure {
    fn clone_in(&self, alloc: Global) -> Result<Self, AllocError> {
        match self {
            ToJsonSchemaFailure::Errors(errors) => {
                Ok(ToJsonSchemaFailure::Errors(errors.clone_in(alloc)?))
            }
            ToJsonSchemaFailure::Memory => Ok(ToJsonSchemaFailure::Memory),
        }
    }
}

/// Why a text was not made a fragment: it has no tree, or its tree is none.
#[derive(PartialEq, Eq, Drop)]
pub enum CedarSchemaParseErrors {
    /// The text has no tree.
    SyntaxError(ParseErrors),
    /// The tree is no fragment.
    JsonError(ToJsonSchemaErrors),
    /// Out of memory.
    Memory,
}

impl Diagnostic for CedarSchemaParseErrors {
    ghost text = { text_failure_text };

    ghost help = { text_failure_help };

    ghost labels = { text_failure_labels };

    fn text(&self, alloc: Global) -> Result<Text, AllocError> {
        match self {
            CedarSchemaParseErrors::SyntaxError(errors) => errors.text(alloc),
            CedarSchemaParseErrors::JsonError(errors) => errors.text(alloc),
            CedarSchemaParseErrors::Memory => message(alloc, "out of memory"),
        }
    }

    fn help(&self, alloc: Global, source: &str) -> Result<Option<Text>, AllocError> {
        match self {
            CedarSchemaParseErrors::SyntaxError(errors) => Diagnostic::help(errors, alloc, source),
            CedarSchemaParseErrors::JsonError(errors) => errors.help(alloc, source),
            CedarSchemaParseErrors::Memory => Ok(None),
        }
    }

    fn labels(&self, alloc: Global) -> Result<Vec<Label>, AllocError> {
        match self {
            CedarSchemaParseErrors::SyntaxError(errors) => errors.labels(alloc),
            CedarSchemaParseErrors::JsonError(errors) => errors.labels(alloc),
            CedarSchemaParseErrors::Memory => Ok(Vec::new(alloc)),
        }
    }

    fn severity(&self) -> Severity {
        Severity::Error
    }
}

impl CloneIn for CedarSchemaParseErrors {
    fn clone_in(&self, alloc: Global) -> Result<Self, AllocError> {
        match self {
            CedarSchemaParseErrors::SyntaxError(errors) => {
                Ok(CedarSchemaParseErrors::SyntaxError(errors.clone_in(alloc)?))
            }
            CedarSchemaParseErrors::JsonError(errors) => {
                Ok(CedarSchemaParseErrors::JsonError(errors.clone_in(alloc)?))
            }
            CedarSchemaParseErrors::Memory => Ok(CedarSchemaParseErrors::Memory),
        }
    }
}

impl From<AllocError> for ToJsonSchemaFailure {
    ghost use Rattle.schema_convert_errors.specs.declared.error_list.ToJsonSchemaFailure.TheVariants.{Memory};

    ghost from_gives = { λ _ e. e ≡ Memory };

    fn from(_error: AllocError) -> ToJsonSchemaFailure {
        ToJsonSchemaFailure::Memory
    }
}
