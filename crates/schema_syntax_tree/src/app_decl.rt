use crate::annotated::Annotated;
use crate::either::Either;
use crate::path::Path;
use crate::pr::PR;
use crate::types::AttrDecl;
use cedar_data::{CloneIn, List, Node, NonEmpty};
use std::alloc::{AllocError, Global};

/// The entity types of an action's principals or resources, where the list that was written is not empty.
pub struct PRAppDecl<'a> {
    pub kind: Node<PR>,
    pub entity_tys: Option<NonEmpty<Path<'a>>>,
}

impl<'a> Drop for PRAppDecl<'a> {
    fn drop(self) {
        let PRAppDecl {
            kind: _kind,
            entity_tys: _entity_tys,
        } = self;
    }
}

/// What an action says of its principals, its resources or its context. The context is a type's name or the attributes
/// of a record.
pub enum AppDecl<'a> {
    PR(PRAppDecl<'a>),
    Context(Either<Path<'a>, Node<List<Node<Annotated<'a, AttrDecl<'a>>>>>>),
}

impl<'a> Drop for AppDecl<'a> {
    fn drop(self) {
        match self {
            AppDecl::PR(_pr) => {}
            AppDecl::Context(_context) => {}
        }
    }
}

impl<'a> CloneIn for PRAppDecl<'a> {
    fn clone_in(&self, alloc: Global) -> Result<Self, AllocError> {
        Ok(PRAppDecl {
            kind: self.kind.clone_in(alloc)?,
            entity_tys: self.entity_tys.clone_in(alloc)?,
        })
    }
}

impl<'a> CloneIn for AppDecl<'a> {
    fn clone_in(&self, alloc: Global) -> Result<Self, AllocError> {
        match self {
            AppDecl::PR(types) => Ok(AppDecl::PR(types.clone_in(alloc)?)),
            AppDecl::Context(context) => Ok(AppDecl::Context(context.clone_in(alloc)?)),
        }
    }
}
