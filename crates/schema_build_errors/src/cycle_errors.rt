ghost use Rattle.schema_resolve_errors.specs.ErrorTexts.{label_at};
ghost use Rattle.schema_resolve_errors.specs.Gathered.{if_there};
ghost use Rattle.schema_build_errors.specs.CycleTexts.{common_cycle_text, action_cycle_text};

use crate::places::place_labels;
use cedar_data::{CloneIn, Diagnostic, Label, Severity, Text, around};
use cedar_identifiers::{InternalName, NameText};
use cedar_names::EntityUID;
use std::alloc::{AllocError, Global};

/// A common type that reaches itself by the references of common types.
pub struct CycleInCommonTypeReferencesError {
    /// The least such common type, at the place of its declaration.
    pub ty: InternalName,
}

impl Drop for CycleInCommonTypeReferencesError {
    fn drop(self) {
        let CycleInCommonTypeReferencesError { ty: _ty } = self;
    }
}

impl Diagnostic for CycleInCommonTypeReferencesError {
    ghost text = { common_cycle_text };

    ghost labels = { λ e. if_there label_at e.ty.loc };

    fn text(&self, alloc: Global) -> Result<Text, AllocError> {
        let name = self.ty.text(alloc)?;
        around(
            alloc,
            "cycle in common type references containing `",
            &name,
            "`",
        )
    }

    fn help(&self, _alloc: Global, _source: &str) -> Result<Option<Text>, AllocError> {
        Ok(None)
    }

    /// The place of the declaration.
    fn labels(&self, alloc: Global) -> Result<Vec<Label>, AllocError> {
        place_labels(alloc, self.ty.loc)
    }

    fn severity(&self) -> Severity {
        Severity::Error
    }
}

impl CloneIn for CycleInCommonTypeReferencesError {
    fn clone_in(&self, alloc: Global) -> Result<Self, AllocError> {
        Ok(CycleInCommonTypeReferencesError {
            ty: self.ty.clone_in(alloc)?,
        })
    }
}

/// An action that reaches itself by the parents of actions.
pub struct CycleInActionHierarchyError {
    /// The least such action, at the place of its declaration.
    pub uid: EntityUID,
}

impl Drop for CycleInActionHierarchyError {
    fn drop(self) {
        let CycleInActionHierarchyError { uid: _uid } = self;
    }
}

impl Diagnostic for CycleInActionHierarchyError {
    ghost text = { action_cycle_text };

    ghost labels = { λ e. if_there label_at e.uid.loc };

    fn text(&self, alloc: Global) -> Result<Text, AllocError> {
        let action = self.uid.text(alloc)?;
        around(
            alloc,
            "cycle in action hierarchy containing `",
            &action,
            "`",
        )
    }

    fn help(&self, _alloc: Global, _source: &str) -> Result<Option<Text>, AllocError> {
        Ok(None)
    }

    /// The place of the declaration.
    fn labels(&self, alloc: Global) -> Result<Vec<Label>, AllocError> {
        place_labels(alloc, self.uid.loc)
    }

    fn severity(&self) -> Severity {
        Severity::Error
    }
}

impl CloneIn for CycleInActionHierarchyError {
    fn clone_in(&self, alloc: Global) -> Result<Self, AllocError> {
        Ok(CycleInActionHierarchyError {
            uid: self.uid.clone_in(alloc)?,
        })
    }
}
