use crate::types::Type;
use cedar_data::{CloneIn, List, Shared};
use cedar_identifiers::Name;
use cedar_names::EntityUID;
use std::alloc::{AllocError, Global};

/// An action of a built schema.
pub struct ValidatorActionId {
    /// All actions that it stands below.
    pub ancestors: List<Shared<EntityUID>>,
    /// What is declared of it.
    pub kind: ValidatorActionKind,
}

impl Drop for ValidatorActionId {
    fn drop(self) {
        let ValidatorActionId {
            ancestors: _ancestors,
            kind: _kind,
        } = self;
    }
}

/// What is declared of an action.
pub enum ValidatorActionKind {
    /// The types of the principals and resources that it applies to, and the type of its context.
    Defined {
        principals: List<Name>,
        resources: List<Name>,
        context: Type,
    },
    /// Another schema declares it.
    External,
}

impl Drop for ValidatorActionKind {
    fn drop(self) {
        match self {
            ValidatorActionKind::Defined {
                principals: _principals,
                resources: _resources,
                context: _context,
            } => {}
            ValidatorActionKind::External => {}
        }
    }
}

impl CloneIn for ValidatorActionId {
    fn clone_in(&self, alloc: Global) -> Result<Self, AllocError> {
        Ok(ValidatorActionId {
            ancestors: self.ancestors.clone_in(alloc)?,
            kind: self.kind.clone_in(alloc)?,
        })
    }
}

impl CloneIn for ValidatorActionKind {
    fn clone_in(&self, alloc: Global) -> Result<Self, AllocError> {
        match self {
            ValidatorActionKind::Defined {
                principals,
                resources,
                context,
            } => Ok(ValidatorActionKind::Defined {
                principals: principals.clone_in(alloc)?,
                resources: resources.clone_in(alloc)?,
                context: context.clone_in(alloc)?,
            }),
            ValidatorActionKind::External => Ok(ValidatorActionKind::External),
        }
    }
}
