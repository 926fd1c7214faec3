use crate::types::Type;
use cedar_data::{Boxed, CloneIn, List, Loc, NonEmpty};
use cedar_identifiers::{Annotations, Eid};
use std::alloc::{AllocError, Global};

/// A declared entity type, with a place that no comparison sees.
#[derive_where(PartialEq, Eq, PartialOrd, Ord, Hash; N)]
pub struct EntityType<N> {
    /// What is declared of it.
    pub kind: EntityTypeKind<N>,
    /// Whether another schema declares it.
    pub external: bool,
    pub annotations: Annotations,
    #[derive_where(skip(EqHashOrd))]
    pub loc: Option<Loc>,
}

impl<N: Drop> Drop for EntityType<N> {
    fn drop(self) {
        let EntityType {
            kind: _kind,
            external: _external,
            annotations: _annotations,
            loc: _loc,
        } = self;
    }
}

/// What is declared of an entity type.
#[derive_where(PartialEq, Eq, PartialOrd, Ord, Hash; N)]
pub enum EntityTypeKind<N> {
    /// Its parents, its attributes and its tags.
    Standard(Boxed<StandardEntityType<N>>),
    /// The entities are listed by their ids.
    Enum { choices: Boxed<NonEmpty<Eid>> },
}

impl<N: Drop> Drop for EntityTypeKind<N> {
    fn drop(self) {
        match self {
            EntityTypeKind::Standard(_value) => {}
            EntityTypeKind::Enum { choices: _choices } => {}
        }
    }
}

/// The parents of an entity type, the type of its attributes, and the type of its tags where it has tags.
#[derive_where(PartialEq, Eq, PartialOrd, Ord, Hash; N)]
pub struct StandardEntityType<N> {
    /// Its parents.
    pub member_of_types: List<N>,
    /// The type of its attributes.
    pub shape: AttributesOrContext<N>,
    /// The type of its tags.
    pub tags: Option<Boxed<Type<N>>>,
}

impl<N: Drop> Drop for StandardEntityType<N> {
    fn drop(self) {
        let StandardEntityType {
            member_of_types: _member_of_types,
            shape: _shape,
            tags: _tags,
        } = self;
    }
}

/// The type of an entity type's attributes or of an action's context.
#[derive(Drop)]
#[derive_where(PartialEq, Eq, PartialOrd, Ord, Hash; N)]
pub struct AttributesOrContext<N>(pub Type<N>);

impl<N: CloneIn> CloneIn for EntityType<N> {
    fn clone_in(&self, alloc: Global) -> Result<Self, AllocError> {
        Ok(EntityType {
            kind: self.kind.clone_in(alloc)?,
            external: self.external,
            annotations: self.annotations.clone_in(alloc)?,
            loc: self.loc,
        })
    }
}

impl<N: CloneIn> CloneIn for EntityTypeKind<N> {
    fn clone_in(&self, alloc: Global) -> Result<Self, AllocError> {
        match self {
            EntityTypeKind::Standard(standard) => {
                Ok(EntityTypeKind::Standard(standard.clone_in(alloc)?))
            }
            EntityTypeKind::Enum { choices } => Ok(EntityTypeKind::Enum {
                choices: choices.clone_in(alloc)?,
            }),
        }
    }
}

impl<N: CloneIn> CloneIn for StandardEntityType<N> {
    fn clone_in(&self, alloc: Global) -> Result<Self, AllocError> {
        Ok(StandardEntityType {
            member_of_types: self.member_of_types.clone_in(alloc)?,
            shape: self.shape.clone_in(alloc)?,
            tags: self.tags.clone_in(alloc)?,
        })
    }
}

impl<N: CloneIn> CloneIn for AttributesOrContext<N> {
    fn clone_in(&self, alloc: Global) -> Result<Self, AllocError> {
        Ok(AttributesOrContext(self.0.clone_in(alloc)?))
    }
}
