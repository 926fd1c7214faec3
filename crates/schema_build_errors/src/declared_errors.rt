ghost use Rattle.std.specs.Prelude.{◌≡◌, IfOk, Some};
ghost use Rattle.schema_resolve_errors.specs.ErrorTexts.{label_at};
ghost use Rattle.schema_resolve_errors.specs.Gathered.{if_there};
ghost use Rattle.schema_build_errors.specs.DeclaredTexts.{action_type_declared_text, type_shadowing_text};
ghost use Rattle.schema_build_errors.specs.DeclaredTexts.{type_shadowing_help, action_shadowing_text};
ghost use Rattle.schema_build_errors.specs.DeclaredTexts.{action_shadowing_help, hidden_text};

use crate::places::place_labels;
use cedar_data::{CloneIn, Diagnostic, Label, Loc, Severity, Text, around, message, push_both};
use cedar_identifiers::{InternalName, NameText};
use cedar_names::EntityUID;
use std::alloc::{AllocError, Global};

/// An entity type is declared with the name `Action`, which the actions of a namespace have for their type.
pub struct ActionEntityTypeDeclaredError {
    /// The place of the declaration, if it has one.
    pub loc: Option<Loc>,
}

impl Drop for ActionEntityTypeDeclaredError {
    fn drop(self) {
        let ActionEntityTypeDeclaredError { loc: _loc } = self;
    }
}

impl Diagnostic for ActionEntityTypeDeclaredError {
    ghost text = { action_type_declared_text };

    ghost labels = { λ e. if_there label_at e.loc };

    fn text(&self, alloc: Global) -> Result<Text, AllocError> {
        message(alloc, "entity type `Action` declared in `entityTypes` list")
    }

    fn help(&self, _alloc: Global, _source: &str) -> Result<Option<Text>, AllocError> {
        Ok(None)
    }

    /// The place of the declaration.
    fn labels(&self, alloc: Global) -> Result<Vec<Label>, AllocError> {
        place_labels(alloc, self.loc)
    }

    fn severity(&self) -> Severity {
        Severity::Error
    }
}

impl CloneIn for ActionEntityTypeDeclaredError {
    fn clone_in(&self, alloc: Global) -> Result<Self, AllocError> {
        Ok(ActionEntityTypeDeclaredError { loc: self.loc })
    }
}

/// A type of a named namespace has the basename of a type of the empty namespace.
pub struct TypeShadowingError {
    /// The type of the empty namespace.
    pub shadowed_def: InternalName,
    /// The type that hides it, at the place of its declaration.
    pub shadowing_def: InternalName,
}

impl Drop for TypeShadowingError {
    fn drop(self) {
        let TypeShadowingError {
            shadowed_def: _shadowed_def,
            shadowing_def: _shadowing_def,
        } = self;
    }
}

impl Diagnostic for TypeShadowingError {
    ghost text = { type_shadowing_text };

    ghost help = { λ e _. Some (type_shadowing_help e) };

    ghost labels = { λ e. if_there label_at e.shadowing_def.loc };

    fn text(&self, alloc: Global) -> Result<Text, AllocError> {
        let shadowing = self.shadowing_def.text(alloc)?;
        let shadowed = self.shadowed_def.text(alloc)?;
        shadowing_text(alloc, &shadowing, &shadowed)
    }

    fn help(&self, alloc: Global, _source: &str) -> Result<Option<Text>, AllocError> {
        let shadowed = self.shadowed_def.text(alloc)?;
        let before = "try renaming one of the definitions, or moving `";
        Ok(Some(around(alloc, before, &shadowed, "` to a different namespace")?))
    }

    /// The place of the declaration that hides the other.
    fn labels(&self, alloc: Global) -> Result<Vec<Label>, AllocError> {
        place_labels(alloc, self.shadowing_def.loc)
    }

    fn severity(&self) -> Severity {
        Severity::Error
    }
}

impl CloneIn for TypeShadowingError {
    fn clone_in(&self, alloc: Global) -> Result<Self, AllocError> {
        Ok(TypeShadowingError {
            shadowed_def: self.shadowed_def.clone_in(alloc)?,
            shadowing_def: self.shadowing_def.clone_in(alloc)?,
        })
    }
}

/// An action of a named namespace has the id of an action of the empty namespace.
pub struct ActionShadowingError {
    /// The action of the empty namespace.
    pub shadowed_def: EntityUID,
    /// The action that hides it, at the place of its declaration.
    pub shadowing_def: EntityUID,
}

impl Drop for ActionShadowingError {
    fn drop(self) {
        let ActionShadowingError {
            shadowed_def: _shadowed_def,
            shadowing_def: _shadowing_def,
        } = self;
    }
}

impl Diagnostic for ActionShadowingError {
    ghost text = { action_shadowing_text };

    ghost help = { λ e _. Some (action_shadowing_help e) };

    ghost labels = { λ e. if_there label_at e.shadowing_def.loc };

    fn text(&self, alloc: Global) -> Result<Text, AllocError> {
        let shadowing = self.shadowing_def.text(alloc)?;
        let shadowed = self.shadowed_def.text(alloc)?;
        shadowing_text(alloc, &shadowing, &shadowed)
    }

    fn help(&self, alloc: Global, _source: &str) -> Result<Option<Text>, AllocError> {
        let shadowed = self.shadowed_def.text(alloc)?;
        let before = "try renaming one of the actions, or moving `";
        Ok(Some(around(alloc, before, &shadowed, "` to a different namespace")?))
    }

    /// The place of the declaration that hides the other.
    fn labels(&self, alloc: Global) -> Result<Vec<Label>, AllocError> {
        place_labels(alloc, self.shadowing_def.loc)
    }

    fn severity(&self) -> Severity {
        Severity::Error
    }
}

impl CloneIn for ActionShadowingError {
    fn clone_in(&self, alloc: Global) -> Result<Self, AllocError> {
        Ok(ActionShadowingError {
            shadowed_def: self.shadowed_def.clone_in(alloc)?,
            shadowing_def: self.shadowing_def.clone_in(alloc)?,
        })
    }
}

// What is said where one definition hides another.
fn shadowing_text(alloc: Global, shadowing: &Text, shadowed: &Text) -> Result<Text, AllocError>
    ensures { IfOk result (λ text. text ≡ hidden_text shadowing.now shadowed.now) }
{
    let between = "` illegally shadows the existing definition of `";
    let mut text = around(alloc, "definition of `", shadowing, between)?;
    push_both(&mut text, shadowed, "`")?;
    Ok(text)
}
