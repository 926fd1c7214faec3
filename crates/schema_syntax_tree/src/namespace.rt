ghost use Rattle.std.specs.Prelude.{◌≡◌, ◌↔◌, true, None};

use crate::annotated::Annotated;
use crate::declaration::Declaration;
use crate::path::Path;
use cedar_data::{Boxed, CloneIn, List, Loc, Node};
use std::alloc::{AllocError, Global};

/// A schema: its namespaces, in the order of the text.
pub type Schema<'a> = List<Annotated<'a, Namespace<'a>>>;

/// A namespace with its declarations, in the order of the text. The one without a name holds what stands outside of
/// every other.
pub struct Namespace<'a> {
    /// Its name, where it has one.
    pub name: Option<Boxed<Path<'a>>>,
    pub decls: List<Annotated<'a, Node<Declaration<'a>>>>,
    /// Its place, where it has one.
    pub loc: Option<Loc>,
}

impl<'a> Drop for Namespace<'a> {
    fn drop(self) {
        let Namespace {
            name: _name,
            decls: _decls,
            loc: _loc,
        } = self;
    }
}

impl<'a> Namespace<'a> {
    /// Whether the namespace has no name.
    pub fn is_unqualified(&self) -> bool
        ensures { result ≡ true ↔ self.now.name ≡ None }
    {
        self.name.is_none()
    }

    /// The name, the declarations and the place.
    pub fn into_parts(
        self,
    ) -> (
        Option<Boxed<Path<'a>>>,
        List<Annotated<'a, Node<Declaration<'a>>>>,
        Option<Loc>,
    )
        ensures { result ≡ (self.entry.name, self.entry.decls, self.entry.loc) }
    {
        let Namespace { name, decls, loc } = self;
        (name, decls, loc)
    }
}

impl<'a> CloneIn for Namespace<'a> {
    fn clone_in(&self, alloc: Global) -> Result<Self, AllocError> {
        Ok(Namespace {
            name: self.name.clone_in(alloc)?,
            decls: self.decls.clone_in(alloc)?,
            loc: self.loc,
        })
    }
}
