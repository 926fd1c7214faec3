ghost use Rattle.std.specs.Prelude.{◌≡◌, IfOk};
ghost use Rattle.schema_syntax_tree.specs.DeclaredNames.{action_names};

use crate::app_decl::AppDecl;
use crate::decl::Decl;
use crate::qual_name::QualName;
use crate::src_str::SrcStr;
use cedar_data::{CloneIn, Node, NonEmpty, Text};
use std::alloc::{AllocError, Global};

/// The declaration of one or more actions that are alike but for their names.
pub enum ActionDecl<'a> {
    /// Actions of this schema.
    Defined(DefinedActionDecl<'a>),
    /// Actions of another schema.
    External(ExternalActionDecl<'a>),
}

impl<'a> Drop for ActionDecl<'a> {
    fn drop(self) {
        match self {
            ActionDecl::Defined(_defined) => {}
            ActionDecl::External(_external) => {}
        }
    }
}

/// Actions with their parents and what they are applied to, where these were written.
pub struct DefinedActionDecl<'a> {
    pub names: NonEmpty<Node<SrcStr<'a>>>,
    pub parents: Option<NonEmpty<Node<QualName<'a>>>>,
    pub app_decls: Option<Node<NonEmpty<Node<AppDecl<'a>>>>>,
}

impl<'a> Drop for DefinedActionDecl<'a> {
    fn drop(self) {
        let DefinedActionDecl {
            names: _names,
            parents: _parents,
            app_decls: _app_decls,
        } = self;
    }
}

/// Actions that another schema declares, with the ancestors that are known.
pub struct ExternalActionDecl<'a> {
    pub names: NonEmpty<Node<SrcStr<'a>>>,
    /// Their ancestors that are known.
    pub parents: Option<NonEmpty<Node<QualName<'a>>>>,
}

impl<'a> Drop for ExternalActionDecl<'a> {
    fn drop(self) {
        let ExternalActionDecl {
            names: _names,
            parents: _parents,
        } = self;
    }
}

impl<'a> Decl for ActionDecl<'a> {
    ghost declared = { action_names };

    fn names(&self, alloc: Global) -> Result<Vec<Node<Text>>, AllocError> {
        match self {
            ActionDecl::Defined(defined) => copied(&defined.names, alloc),
            ActionDecl::External(external) => copied(&external.names, alloc),
        }
    }
}

// Copies of the names, in order.
fn copied(names: &NonEmpty<Node<SrcStr<'_>>>, alloc: Global) -> Result<Vec<Node<Text>>, AllocError>
    ensures { IfOk result (λ copy. copy.items ≡ names.now) }
{
    let mut copy = Vec::new(alloc);
    for name in names.iter() {
        copy.push(Node {
            node: name.node.to_text(alloc)?,
            loc: name.loc,
        })?;
    }
    Ok(copy)
}

impl<'a> CloneIn for ActionDecl<'a> {
    fn clone_in(&self, alloc: Global) -> Result<Self, AllocError> {
        match self {
            ActionDecl::Defined(defined) => Ok(ActionDecl::Defined(defined.clone_in(alloc)?)),
            ActionDecl::External(external) => Ok(ActionDecl::External(external.clone_in(alloc)?)),
        }
    }
}

impl<'a> CloneIn for DefinedActionDecl<'a> {
    fn clone_in(&self, alloc: Global) -> Result<Self, AllocError> {
        Ok(DefinedActionDecl {
            names: self.names.clone_in(alloc)?,
            parents: self.parents.clone_in(alloc)?,
            app_decls: self.app_decls.clone_in(alloc)?,
        })
    }
}

impl<'a> CloneIn for ExternalActionDecl<'a> {
    fn clone_in(&self, alloc: Global) -> Result<Self, AllocError> {
        Ok(ExternalActionDecl {
            names: self.names.clone_in(alloc)?,
            parents: self.parents.clone_in(alloc)?,
        })
    }
}
