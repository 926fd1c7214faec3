ghost use Rattle.std.specs.Prelude.{◌≡◌};
ghost use Rattle.cedar_data.specs.NonEmpty.{items_left};
ghost use Rattle.schema_syntax_tree.specs.DeclaredNames.{entity_names};

use crate::annotated::Annotated;
use crate::path::Path;
use crate::src_id::SrcId;
use crate::src_str::SrcStr;
use crate::types::{AttrDecl, Type};
use cedar_data::{Boxed, CloneIn, List, Node, NonEmpty, NonEmptyIter};
use std::alloc::{AllocError, Global};

/// The declaration of one or more entity types that are alike but for their names.
pub enum EntityDecl<'a> {
    /// Entity types with parents, attributes and tags.
    Standard(StandardEntityDecl<'a>),
    /// Entity types whose entities are listed.
    Enum(EnumEntityDecl<'a>),
    /// Entity types of another schema.
    External(ExternalEntityDecl<'a>),
}

impl<'a> Drop for EntityDecl<'a> {
    fn drop(self) {
        match self {
            EntityDecl::Standard(_standard) => {}
            EntityDecl::Enum(_enum) => {}
            EntityDecl::External(_external) => {}
        }
    }
}

/// Entity types with their parents, their attributes and the type of their tags, where they have tags.
pub struct StandardEntityDecl<'a> {
    pub names: NonEmpty<Node<SrcId<'a>>>,
    /// Their parents.
    pub member_of_types: List<Path<'a>>,
    pub attrs: Node<List<Node<Annotated<'a, AttrDecl<'a>>>>>,
    pub tags: Option<Boxed<Node<Type<'a>>>>,
}

impl<'a> Drop for StandardEntityDecl<'a> {
    fn drop(self) {
        let StandardEntityDecl {
            names: _names,
            member_of_types: _member_of_types,
            attrs: _attrs,
            tags: _tags,
        } = self;
    }
}

/// Entity types that another schema declares, with the ancestors that are known.
pub struct ExternalEntityDecl<'a> {
    pub names: NonEmpty<Node<SrcId<'a>>>,
    /// Their ancestors that are known.
    pub member_of_types: List<Path<'a>>,
}

impl<'a> Drop for ExternalEntityDecl<'a> {
    fn drop(self) {
        let ExternalEntityDecl {
            names: _names,
            member_of_types: _member_of_types,
        } = self;
    }
}

/// Entity types whose entities are listed by their ids.
pub struct EnumEntityDecl<'a> {
    pub names: NonEmpty<Node<SrcId<'a>>>,
    /// The ids of their entities.
    pub choices: NonEmpty<Node<SrcStr<'a>>>,
}

impl<'a> Drop for EnumEntityDecl<'a> {
    fn drop(self) {
        let EnumEntityDecl {
            names: _names,
            choices: _choices,
        } = self;
    }
}

impl<'a> EntityDecl<'a> {
    /// The names of the entity types, in the order of the text.
    pub fn names(&self) -> NonEmptyIter<'_, Node<SrcId<'a>>>
        ensures { items_left result ≡ entity_names self.now }
    {
        match self {
            EntityDecl::Standard(standard) => standard.names.iter(),
            EntityDecl::Enum(listed) => listed.names.iter(),
            EntityDecl::External(external) => external.names.iter(),
        }
    }
}

impl<'a> CloneIn for EntityDecl<'a> {
    fn clone_in(&self, alloc: Global) -> Result<Self, AllocError> {
        match self {
            EntityDecl::Standard(standard) => Ok(EntityDecl::Standard(standard.clone_in(alloc)?)),
            EntityDecl::Enum(listed) => Ok(EntityDecl::Enum(listed.clone_in(alloc)?)),
            EntityDecl::External(external) => Ok(EntityDecl::External(external.clone_in(alloc)?)),
        }
    }
}

impl<'a> CloneIn for StandardEntityDecl<'a> {
    fn clone_in(&self, alloc: Global) -> Result<Self, AllocError> {
        Ok(StandardEntityDecl {
            names: self.names.clone_in(alloc)?,
            member_of_types: self.member_of_types.clone_in(alloc)?,
            attrs: self.attrs.clone_in(alloc)?,
            tags: self.tags.clone_in(alloc)?,
        })
    }
}

impl<'a> CloneIn for ExternalEntityDecl<'a> {
    fn clone_in(&self, alloc: Global) -> Result<Self, AllocError> {
        Ok(ExternalEntityDecl {
            names: self.names.clone_in(alloc)?,
            member_of_types: self.member_of_types.clone_in(alloc)?,
        })
    }
}

impl<'a> CloneIn for EnumEntityDecl<'a> {
    fn clone_in(&self, alloc: Global) -> Result<Self, AllocError> {
        Ok(EnumEntityDecl {
            names: self.names.clone_in(alloc)?,
            choices: self.choices.clone_in(alloc)?,
        })
    }
}
