use crate::action_type::ActionType;
use crate::common_type::{CommonType, CommonTypeId};
use crate::entity_type::EntityType;
use cedar_data::{CloneIn, Map, Text};
use cedar_identifiers::{Annotations, Name, NameText, UnreservedId};
use std::alloc::{AllocError, Global};

/// A fragment of a schema: its namespaces by name. The empty one has none.
#[derive_where(PartialEq, Eq, PartialOrd, Ord, Hash; N)]
pub struct Fragment<N: NameText>(pub Map<Option<Name>, NamespaceDefinition<N>>);

impl<N: NameText + Drop> Drop for Fragment<N> {
    fn drop(self) {
        let Fragment(_value) = self;
    }
}

/// A namespace: the common types, entity types and actions that it declares, by name.
#[derive_where(PartialEq, Eq, PartialOrd, Ord, Hash; N)]
pub struct NamespaceDefinition<N: NameText> {
    pub common_types: Map<CommonTypeId, CommonType<N>>,
    pub entity_types: Map<UnreservedId, EntityType<N>>,
    pub actions: Map<Text, ActionType<N>>,
    pub annotations: Annotations,
}

impl<N: NameText + Drop> Drop for NamespaceDefinition<N> {
    fn drop(self) {
        let NamespaceDefinition {
            common_types: _common_types,
            entity_types: _entity_types,
            actions: _actions,
            annotations: _annotations,
        } = self;
    }
}

impl<N: CloneIn + NameText> CloneIn for Fragment<N> {
    fn clone_in(&self, alloc: Global) -> Result<Self, AllocError> {
        Ok(Fragment(self.0.clone_in(alloc)?))
    }
}

impl<N: CloneIn + NameText> CloneIn for NamespaceDefinition<N> {
    fn clone_in(&self, alloc: Global) -> Result<Self, AllocError> {
        Ok(NamespaceDefinition {
            common_types: self.common_types.clone_in(alloc)?,
            entity_types: self.entity_types.clone_in(alloc)?,
            actions: self.actions.clone_in(alloc)?,
            annotations: self.annotations.clone_in(alloc)?,
        })
    }
}
