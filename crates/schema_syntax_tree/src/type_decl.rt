ghost use Rattle.std.specs.Prelude.{[], ◌∷◌};

use crate::decl::Decl;
use crate::src_id::SrcId;
use crate::types::Type;
use cedar_data::{CloneIn, Node, Text};
use std::alloc::{AllocError, Global};

/// The declaration of a common type: its name, and the type that it stands for.
pub struct TypeDecl<'a> {
    pub name: Node<SrcId<'a>>,
    pub def: Node<Type<'a>>,
}

impl<'a> Drop for TypeDecl<'a> {
    fn drop(self) {
        let TypeDecl {
            name: _name,
            def: _def,
        } = self;
    }
}

impl<'a> Decl for TypeDecl<'a> {
    ghost declared = { λ d. record { node = d.name.node.text; loc = d.name.loc } ∷ [] };

    fn names(&self, alloc: Global) -> Result<Vec<Node<Text>>, AllocError> {
        let name = Node {
            node: Text::from_str(alloc, self.name.node.as_str())?,
            loc: self.name.loc,
        };
        let mut names = Vec::new(alloc);
        names.push(name)?;
        Ok(names)
    }
}

impl<'a> CloneIn for TypeDecl<'a> {
    fn clone_in(&self, alloc: Global) -> Result<Self, AllocError> {
        Ok(TypeDecl {
            name: self.name.clone_in(alloc)?,
            def: self.def.clone_in(alloc)?,
        })
    }
}
