ghost use Rattle.std.specs.Prelude.{◌≡◌, [], IsOkAnd};
ghost use Rattle.schema_json.specs.Keywords.{reserved_text};

use cedar_data::{CloneIn, Diagnostic, Label, Severity, Text};
use cedar_identifiers::{InternalName, UnreservedId};
use std::alloc::{AllocError, Global};

/// The name of a common type is one that names a type or a kind of types already.
#[derive(PartialEq, Eq, Drop)]
pub struct ReservedCommonTypeBasenameError {
    pub id: UnreservedId,
}

impl Diagnostic for ReservedCommonTypeBasenameError {
    ghost text = { λ e. reserved_text e.id.id.text };

    fn text(&self, alloc: Global) -> Result<Text, AllocError> {
        let mut text = Text::from_str(
            alloc,
            "this is reserved and cannot be the basename of a common-type declaration: ",
        )?;
        text.push_text(&self.id.id.text)?;
        Ok(text)
    }

    fn help(&self, _alloc: Global, _source: &str) -> Result<Option<Text>, AllocError> {
        Ok(None)
    }

    /// It takes no memory.
    fn labels(&self, alloc: Global) -> Result<Vec<Label>, AllocError>
        ensures none { IsOkAnd result (λ labels. labels.items ≡ []) }
    {
        Ok(Vec::new(alloc))
    }

    fn severity(&self) -> Severity {
        Severity::Error
    }
}

impl CloneIn for ReservedCommonTypeBasenameError {
    fn clone_in(&self, alloc: Global) -> Result<Self, AllocError> {
        Ok(ReservedCommonTypeBasenameError {
            id: self.id.clone_in(alloc)?,
        })
    }
}

/// A component of the name is `__cedar`, which no entity's type may have.
#[derive(Drop)]
pub struct ReservedNameError {
    pub name: InternalName,
}

impl CloneIn for ReservedNameError {
    fn clone_in(&self, alloc: Global) -> Result<Self, AllocError> {
        Ok(ReservedNameError {
            name: self.name.clone_in(alloc)?,
        })
    }
}
