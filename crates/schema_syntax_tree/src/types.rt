ghost use Rattle.std.specs.Prelude.{◌≡◌, IfOk};

use crate::annotated::Annotated;
use crate::path::Path;
use crate::src_str::SrcStr;
use cedar_data::{Boxed, CloneIn, List, Node};
use std::alloc::{AllocError, Global};

/// A type: a set, a name, or a record with its attributes in the order of the text.
#[cycle(types)]
pub enum Type<'a> {
    /// The sets of a type.
    Set(Boxed<Node<Type<'a>>>),
    /// What the path names, a common type or an entity type.
    Ident(Path<'a>),
    /// The records with these attributes.
    Record(List<Node<Annotated<'a, AttrDecl<'a>>>>),
}

impl<'a> Drop for Type<'a> {
    #[cycle(drops)]
    fn drop(self) {
        match self {
            Type::Set(_set) => {}
            Type::Ident(_ident) => {}
            Type::Record(_record) => {}
        }
    }
}

/// An attribute, whether each record has it, and its type.
#[cycle(types)]
pub struct AttrDecl<'a> {
    pub name: Node<SrcStr<'a>>,
    /// Whether each record has the attribute.
    pub required: bool,
    pub ty: Node<Type<'a>>,
}

impl<'a> Drop for AttrDecl<'a> {
    #[cycle(drops)]
    fn drop(self) {
        let AttrDecl {
            name: _name,
            required: _required,
            ty: _ty,
        } = self;
    }
}

impl<'a> CloneIn for Type<'a> {
    #[cycle(clone_in)]
    fn clone_in(&self, alloc: Global) -> Result<Self, AllocError> {
        match self {
            Type::Set(element) => {
                let element = element.get();
                let copy = Node {
                    node: element.node.clone_in(alloc)?,
                    loc: element.loc,
                };
                Ok(Type::Set(Boxed::new(alloc, copy)?))
            }
            Type::Ident(path) => Ok(Type::Ident(path.clone_in(alloc)?)),
            Type::Record(attributes) => Ok(Type::Record(List::from_vec(clone_attributes(
                attributes.as_slice(),
                alloc,
            )?))),
        }
    }
}

impl<'a> CloneIn for AttrDecl<'a> {
    #[cycle(clone_in)]
    fn clone_in(&self, alloc: Global) -> Result<Self, AllocError> {
        Ok(AttrDecl {
            name: self.name.clone_in(alloc)?,
            required: self.required,
            ty: Node {
                node: self.ty.node.clone_in(alloc)?,
                loc: self.ty.loc,
            },
        })
    }
}

// Copies of the attributes, in order.
#[cycle(clone_in)]
fn clone_attributes<'a>(
    attributes: &[Node<Annotated<'a, AttrDecl<'a>>>],
    alloc: Global,
) -> Result<Vec<Node<Annotated<'a, AttrDecl<'a>>>>, AllocError>
    ensures { IfOk result (λ copy. copy.items ≡ attributes.now) }
{
    let mut copy = Vec::new(alloc);
    for attribute in attributes {
        copy.push(Node {
            node: Annotated {
                item: attribute.node.item.clone_in(alloc)?,
                annotations: attribute.node.annotations.clone_in(alloc)?,
            },
            loc: attribute.loc,
        })?;
    }
    Ok(copy)
}
