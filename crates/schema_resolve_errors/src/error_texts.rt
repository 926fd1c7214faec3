ghost use Rattle.std.specs.Prelude.{◌≡◌, ◌++◌, IfOk, OnOk, Some};
ghost use Rattle.schema_resolve_errors.specs.ErrorTexts.{type_texts, action_texts, unresolved_text, undeclared_text};
ghost use Rattle.schema_resolve_errors.specs.ErrorTexts.{undeclared_actions_help, name_labels, type_labels};
ghost use Rattle.schema_resolve_errors.specs.ErrorTexts.{action_labels, resolve_error_text, resolve_error_help};
ghost use Rattle.schema_resolve_errors.specs.ErrorTexts.{resolve_error_labels};

use crate::name_texts::name_texts;
use crate::resolve_error::{ActionNotDefinedError, ResolveError, TypeNotDefinedError};
use cedar_data::{
    Diagnostic, Label, NonEmpty, Severity, Text, and_list, by_number, comma_list, message,
};
use cedar_identifiers::{ConditionalName, InternalName};
use schema_json::ActionEntityUID;
use std::alloc::{AllocError, Global};

impl Diagnostic for TypeNotDefinedError {
    ghost text = { λ e. unresolved_text (type_texts e.undefined_types) };

    ghost labels = { λ e. type_labels e.undefined_types };

    /// What the error says, with the names as they were written.
    fn text(&self, alloc: Global) -> Result<Text, AllocError> {
        let names = name_texts(alloc, &self.undefined_types)?;
        let one = "failed to resolve type: ";
        let several = "failed to resolve types: ";
        let mut text = by_number(alloc, &names, one, several)?;
        text.push_text(&comma_list(alloc, &names)?)?;
        Ok(text)
    }

    fn help(&self, _alloc: Global, _source: &str) -> Result<Option<Text>, AllocError> {
        Ok(None)
    }

    /// The places of the references, in order. One without a place gives none.
    fn labels(&self, alloc: Global) -> Result<Vec<Label>, AllocError> {
        let mut labels = Vec::new(alloc);
        for reference in self.undefined_types.iter() {
            add_label(&mut labels, &reference.raw.name)?;
        }
        Ok(labels)
    }

    fn severity(&self) -> Severity {
        Severity::Error
    }
}

impl Diagnostic for ActionNotDefinedError {
    ghost text = { λ e. undeclared_text (action_texts e.0) };

    ghost help = { λ _ _. Some undeclared_actions_help };

    ghost labels = { λ e. action_labels e.0 };

    /// What the error says, with the type of each action as it was written, or `Action` where none was.
    fn text(&self, alloc: Global) -> Result<Text, AllocError> {
        let actions = action_texts(alloc, &self.0)?;
        let one = "undeclared action: ";
        let several = "undeclared actions: ";
        let mut text = by_number(alloc, &actions, one, several)?;
        text.push_text(&and_list(alloc, &actions)?)?;
        Ok(text)
    }

    fn help(&self, alloc: Global, _source: &str) -> Result<Option<Text>, AllocError> {
        let advice = message(
            alloc,
            "any actions appearing as parents need to be declared as actions",
        )?;
        Ok(Some(advice))
    }

    /// The places of the types of the references, in order. One that was not written, or has no place, gives none.
    fn labels(&self, alloc: Global) -> Result<Vec<Label>, AllocError> {
        let mut labels = Vec::new(alloc);
        for reference in self.0.iter() {
            add_label(&mut labels, &reference.ty().raw.name)?;
        }
        Ok(labels)
    }

    fn severity(&self) -> Severity {
        Severity::Error
    }
}

impl Diagnostic for ResolveError {
    ghost text = { resolve_error_text };

    ghost help = { λ e _. resolve_error_help e };

    ghost labels = { resolve_error_labels };

    fn text(&self, alloc: Global) -> Result<Text, AllocError> {
        match self {
            ResolveError::TypeNotDefined(error) => error.text(alloc),
            ResolveError::ActionNotDefined(error) => error.text(alloc),
            ResolveError::Memory => message(alloc, "out of memory"),
        }
    }

    fn help(&self, alloc: Global, source: &str) -> Result<Option<Text>, AllocError> {
        match self {
            ResolveError::TypeNotDefined(error) => error.help(alloc, source),
            ResolveError::ActionNotDefined(error) => error.help(alloc, source),
            ResolveError::Memory => Ok(None),
        }
    }

    fn labels(&self, alloc: Global) -> Result<Vec<Label>, AllocError> {
        match self {
            ResolveError::TypeNotDefined(error) => error.labels(alloc),
            ResolveError::ActionNotDefined(error) => error.labels(alloc),
            ResolveError::Memory => Ok(Vec::new(alloc)),
        }
    }

    fn severity(&self) -> Severity {
        match self {
            ResolveError::TypeNotDefined(error) => error.severity(),
            ResolveError::ActionNotDefined(error) => error.severity(),
            ResolveError::Memory => Severity::Error,
        }
    }
}

// The texts of the references, in order.
fn action_texts(
    alloc: Global,
    actions: &NonEmpty<ActionEntityUID<ConditionalName>>,
) -> Result<Vec<Text>, AllocError>
    ensures { IfOk result (λ texts. texts.items ≡ action_texts actions.now) }
{
    let mut texts = Vec::new(alloc);
    for action in actions.iter() {
        texts.push(action.text(alloc)?)?;
    }
    Ok(texts)
}

// Adds the place of the name, where it has one.
fn add_label(labels: &mut Vec<Label>, name: &InternalName) -> Result<(), AllocError>
    ensures { OnOk result (labels.new.items ≡ labels.old.items ++ name_labels name.now) }
{
    match name.loc {
        Some(span) => {
            labels.push(Label { span, text: None })?;
            Ok(())
        }
        None => Ok(()),
    }
}
