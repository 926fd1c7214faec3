use crate::action_decl::ActionDecl;
use crate::entity_decl::EntityDecl;
use crate::type_decl::TypeDecl;
use cedar_data::{Boxed, CloneIn};
use std::alloc::{AllocError, Global};

/// A declaration: of entity types, of actions or of a common type.
pub enum Declaration<'a> {
    Entity(EntityDecl<'a>),
    Action(Boxed<ActionDecl<'a>>),
    Common(TypeDecl<'a>),
}

impl<'a> Drop for Declaration<'a> {
    fn drop(self) {
        match self {
            Declaration::Entity(_entity) => {}
            Declaration::Action(_action) => {}
            Declaration::Common(_common) => {}
        }
    }
}

impl<'a> CloneIn for Declaration<'a> {
    fn clone_in(&self, alloc: Global) -> Result<Self, AllocError> {
        match self {
            Declaration::Entity(entity) => Ok(Declaration::Entity(entity.clone_in(alloc)?)),
            Declaration::Action(action) => Ok(Declaration::Action(action.clone_in(alloc)?)),
            Declaration::Common(common) => Ok(Declaration::Common(common.clone_in(alloc)?)),
        }
    }
}
