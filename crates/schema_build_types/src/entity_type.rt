use crate::types::{Type, clone_entries};
use cedar_data::{Boxed, CloneIn, List, Map, NonEmpty, Shared, Text};
use cedar_identifiers::{Eid, Name};
use std::alloc::{AllocError, Global};

/// An entity type of a built schema.
pub struct ValidatorEntityType {
    /// All entity types that it stands below.
    pub ancestors: List<Shared<Name>>,
    /// What is declared of it.
    pub kind: ValidatorEntityTypeKind,
}

impl Drop for ValidatorEntityType {
    fn drop(self) {
        let ValidatorEntityType {
            ancestors: _ancestors,
            kind: _kind,
        } = self;
    }
}

/// What is declared of an entity type.
pub enum ValidatorEntityTypeKind {
    /// Its attributes, each with its type and its required mark, whether its entities may have more of them, and the
    /// type of its tags where it has tags.
    Standard {
        attributes: Map<Text, (Type, bool)>,
        more: bool,
        tags: Option<Boxed<Type>>,
    },
    /// The entities are listed by their ids.
    Enum(NonEmpty<Eid>),
    /// Another schema declares it.
    External,
}

impl Drop for ValidatorEntityTypeKind {
    fn drop(self) {
        match self {
            ValidatorEntityTypeKind::Standard {
                attributes: _attributes,
                more: _more,
                tags: _tags,
            } => {}
            ValidatorEntityTypeKind::Enum(_value) => {}
            ValidatorEntityTypeKind::External => {}
        }
    }
}

impl CloneIn for ValidatorEntityType {
    fn clone_in(&self, alloc: Global) -> Result<Self, AllocError> {
        Ok(ValidatorEntityType {
            ancestors: self.ancestors.clone_in(alloc)?,
            kind: self.kind.clone_in(alloc)?,
        })
    }
}

impl CloneIn for ValidatorEntityTypeKind {
    fn clone_in(&self, alloc: Global) -> Result<Self, AllocError> {
        match self {
            ValidatorEntityTypeKind::Standard {
                attributes,
                more,
                tags,
            } => {
                let attributes = clone_entries(alloc, attributes.as_slice())?;
                Ok(ValidatorEntityTypeKind::Standard {
                    attributes: Map::from_sorted_vec(attributes),
                    more: *more,
                    tags: tags.clone_in(alloc)?,
                })
            }
            ValidatorEntityTypeKind::Enum(choices) => {
                Ok(ValidatorEntityTypeKind::Enum(choices.clone_in(alloc)?))
            }
            ValidatorEntityTypeKind::External => Ok(ValidatorEntityTypeKind::External),
        }
    }
}
