ghost use Rattle.std.specs.Prelude.{◌≡◌, IfOk, Some};
ghost use Rattle.schema_resolve_errors.specs.ErrorTexts.{label_at};
ghost use Rattle.schema_resolve_errors.specs.Gathered.{if_there};
ghost use Rattle.schema_build_errors.specs.HierarchyTexts.{enum_ancestor_text, enum_ancestor_help, action_type_text};
ghost use Rattle.schema_build_errors.specs.HierarchyTexts.{enum_parent_text, enum_parent_help, ancestor_message};
ghost use Rattle.schema_build_errors.specs.HierarchyTexts.{action_message};

use crate::places::place_labels;
use cedar_data::{CloneIn, Diagnostic, Label, Severity, Text, around, message, push_both};
use cedar_identifiers::{Name, NameText};
use cedar_names::EntityUID;
use std::alloc::{AllocError, Global};

/// An external entity type that has an enumerated entity type among its ancestors.
pub struct ExternalWithEnumAncestorError {
    /// The least such external type, at the place of its declaration.
    pub external_type: Name,
    /// The least enumerated type among its ancestors.
    pub enum_type: Name,
}

impl Drop for ExternalWithEnumAncestorError {
    fn drop(self) {
        let ExternalWithEnumAncestorError {
            external_type: _external_type,
            enum_type: _enum_type,
        } = self;
    }
}

impl Diagnostic for ExternalWithEnumAncestorError {
    ghost text = { enum_ancestor_text };

    ghost help = { λ _ _. Some enum_ancestor_help };

    ghost labels = { λ e. if_there label_at e.external_type.name.loc };

    fn text(&self, alloc: Global) -> Result<Text, AllocError> {
        let external = self.external_type.text(alloc)?;
        let ancestor = self.enum_type.text(alloc)?;
        ancestor_message(alloc, &external, &ancestor)
    }

    fn help(&self, alloc: Global, _source: &str) -> Result<Option<Text>, AllocError> {
        let advice = message(
            alloc,
            "external entity types cannot have any enum entity type as an ancestor",
        )?;
        Ok(Some(advice))
    }

    /// The place of the declaration of the external type.
    fn labels(&self, alloc: Global) -> Result<Vec<Label>, AllocError> {
        place_labels(alloc, self.external_type.name.loc)
    }

    fn severity(&self) -> Severity {
        Severity::Error
    }
}

impl CloneIn for ExternalWithEnumAncestorError {
    fn clone_in(&self, alloc: Global) -> Result<Self, AllocError> {
        Ok(ExternalWithEnumAncestorError {
            external_type: self.external_type.clone_in(alloc)?,
            enum_type: self.enum_type.clone_in(alloc)?,
        })
    }
}

/// An action whose type has another basename than `Action`.
pub struct InvalidActionTypeError {
    /// The least such action.
    pub uid: EntityUID,
}

impl Drop for InvalidActionTypeError {
    fn drop(self) {
        let InvalidActionTypeError { uid: _uid } = self;
    }
}

impl Diagnostic for InvalidActionTypeError {
    ghost text = { action_type_text };

    fn text(&self, alloc: Global) -> Result<Text, AllocError> {
        let action = self.uid.text(alloc)?;
        action_message(alloc, &action)
    }

    fn help(&self, _alloc: Global, _source: &str) -> Result<Option<Text>, AllocError> {
        Ok(None)
    }

    fn labels(&self, alloc: Global) -> Result<Vec<Label>, AllocError> {
        Ok(Vec::new(alloc))
    }

    fn severity(&self) -> Severity {
        Severity::Error
    }
}

impl CloneIn for InvalidActionTypeError {
    fn clone_in(&self, alloc: Global) -> Result<Self, AllocError> {
        Ok(InvalidActionTypeError {
            uid: self.uid.clone_in(alloc)?,
        })
    }
}

/// An enumerated entity type with an ancestor.
pub struct EnumEntityInHierarchyError {
    /// The least such type.
    pub enum_type: Name,
    /// The least of its ancestors.
    pub parent_type: Name,
}

impl Drop for EnumEntityInHierarchyError {
    fn drop(self) {
        let EnumEntityInHierarchyError {
            enum_type: _enum_type,
            parent_type: _parent_type,
        } = self;
    }
}

impl Diagnostic for EnumEntityInHierarchyError {
    ghost text = { enum_parent_text };

    ghost help = { λ _ _. Some enum_parent_help };

    fn text(&self, alloc: Global) -> Result<Text, AllocError> {
        let child = self.enum_type.text(alloc)?;
        let parent = self.parent_type.text(alloc)?;
        let between = "` cannot be a descendant of `";
        let mut text = around(alloc, "enum entity type `", &child, between)?;
        push_both(&mut text, &parent, "`")?;
        Ok(text)
    }

    fn help(&self, alloc: Global, _source: &str) -> Result<Option<Text>, AllocError> {
        let advice = message(
            alloc,
            "enum entity types cannot have parents in the entity hierarchy",
        )?;
        Ok(Some(advice))
    }

    fn labels(&self, alloc: Global) -> Result<Vec<Label>, AllocError> {
        Ok(Vec::new(alloc))
    }

    fn severity(&self) -> Severity {
        Severity::Error
    }
}

impl CloneIn for EnumEntityInHierarchyError {
    fn clone_in(&self, alloc: Global) -> Result<Self, AllocError> {
        Ok(EnumEntityInHierarchyError {
            enum_type: self.enum_type.clone_in(alloc)?,
            parent_type: self.parent_type.clone_in(alloc)?,
        })
    }
}

// What is said of an external type and of its ancestor.
fn ancestor_message(alloc: Global, external: &Text, ancestor: &Text) -> Result<Text, AllocError>
    ensures { IfOk result (λ text. text ≡ ancestor_message external.now ancestor.now) }
{
    let between = "` cannot have the enum entity type `";
    let mut text = around(alloc, "external entity type `", external, between)?;
    push_both(&mut text, ancestor, "` as an ancestor")?;
    Ok(text)
}

// What is said of an action.
fn action_message(alloc: Global, action: &Text) -> Result<Text, AllocError>
    ensures { IfOk result (λ text. text ≡ action_message action.now) }
{
    let after = "` has an entity type whose basename is not `Action`";
    around(alloc, "action `", action, after)
}
