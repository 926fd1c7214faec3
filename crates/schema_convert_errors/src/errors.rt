use cedar_data::{CloneIn, Loc, Text};
use schema_syntax_tree::PR;
use std::alloc::{AllocError, Global};

/// A name that is declared twice in a namespace, with the place of its first declaration and that of the second.
#[derive(PartialEq, Eq)]
pub struct DuplicateDeclarations {
    /// The name.
    pub decl: Text,
    /// The place of the first declaration.
    pub loc1: Option<Loc>,
    /// The place of the second.
    pub loc2: Option<Loc>,
}

impl Drop for DuplicateDeclarations {
    fn drop(self) {
        let DuplicateDeclarations {
            decl: _decl,
            loc1: _loc1,
            loc2: _loc2,
        } = self;
    }
}

/// A second context of an action, with the places of the first and the second.
#[derive(PartialEq, Eq)]
pub struct DuplicateContext {
    /// The action's name.
    pub name: Text,
    /// The place of the first context.
    pub loc1: Option<Loc>,
    /// The place of the second.
    pub loc2: Option<Loc>,
}

impl Drop for DuplicateContext {
    fn drop(self) {
        let DuplicateContext {
            name: _name,
            loc1: _loc1,
            loc2: _loc2,
        } = self;
    }
}

/// A second list of an action's principals or resources, with the places of the first and the second.
#[derive(PartialEq, Eq)]
pub struct DuplicatePrincipalOrResource {
    /// The action's name.
    pub name: Text,
    /// Which of the two the lists are of.
    pub kind: PR,
    /// The place of the first list.
    pub loc1: Option<Loc>,
    /// The place of the second.
    pub loc2: Option<Loc>,
}

impl Drop for DuplicatePrincipalOrResource {
    fn drop(self) {
        let DuplicatePrincipalOrResource {
            name: _name,
            kind: _kind,
            loc1: _loc1,
            loc2: _loc2,
        } = self;
    }
}

/// Why an action has no principals or resources: the list is not there, or it is `[]`.
#[derive(PartialEq, Eq)]
pub enum MissingOrEmpty {
    /// The list is not there.
    Missing,
    /// The list is `[]`, and stands at this place.
    Empty { loc: Option<Loc> },
}

impl Drop for MissingOrEmpty {
    fn drop(self) {
        match self {
            MissingOrEmpty::Missing => {}
            MissingOrEmpty::Empty { loc: _loc } => {}
        }
    }
}

/// An action without principals or resources.
#[derive(PartialEq, Eq)]
pub struct NoPrincipalOrResource {
    /// Which of the two it lacks.
    pub kind: PR,
    /// The action's name.
    pub name: Text,
    /// Why it lacks them.
    pub missing_or_empty: MissingOrEmpty,
    /// The place of the action's name.
    pub name_loc: Option<Loc>,
}

impl Drop for NoPrincipalOrResource {
    fn drop(self) {
        let NoPrincipalOrResource {
            kind: _kind,
            name: _name,
            missing_or_empty: _missing_or_empty,
            name_loc: _name_loc,
        } = self;
    }
}

/// A namespace that stood before, with its place and the earlier one's. No call here gives it.
#[derive(PartialEq, Eq)]
pub struct DuplicateNamespace {
    pub namespace_id: Text,
    pub loc1: Option<Loc>,
    pub loc2: Option<Loc>,
}

impl Drop for DuplicateNamespace {
    fn drop(self) {
        let DuplicateNamespace {
            namespace_id: _namespace_id,
            loc1: _loc1,
            loc2: _loc2,
        } = self;
    }
}

/// A type's name that means nothing. No call here gives it.
#[derive(PartialEq, Eq)]
pub struct UnknownTypeName {
    pub name: Text,
    pub loc: Option<Loc>,
}

impl Drop for UnknownTypeName {
    fn drop(self) {
        let UnknownTypeName {
            name: _name,
            loc: _loc,
        } = self;
    }
}

/// A declared name with `__cedar` in it.
#[derive(PartialEq, Eq)]
pub struct ReservedName {
    /// The name.
    pub name: Text,
    /// Its place.
    pub loc: Option<Loc>,
}

impl Drop for ReservedName {
    fn drop(self) {
        let ReservedName {
            name: _name,
            loc: _loc,
        } = self;
    }
}

/// A common type that is named like one of the types that every schema has.
#[derive(PartialEq, Eq)]
pub struct ReservedSchemaKeyword {
    /// The name.
    pub keyword: Text,
    /// Its place.
    pub loc: Option<Loc>,
}

impl Drop for ReservedSchemaKeyword {
    fn drop(self) {
        let ReservedSchemaKeyword {
            keyword: _keyword,
            loc: _loc,
        } = self;
    }
}

/// What keeps a tree from being a fragment.
#[derive(PartialEq, Eq)]
pub enum ToJsonSchemaError {
    DuplicateDeclarations(DuplicateDeclarations),
    DuplicateContext(DuplicateContext),
    DuplicatePrincipalOrResource(DuplicatePrincipalOrResource),
    NoPrincipalOrResource(NoPrincipalOrResource),
    DuplicateNamespaces(DuplicateNamespace),
    UnknownTypeName(UnknownTypeName),
    ReservedName(ReservedName),
    ReservedSchemaKeyword(ReservedSchemaKeyword),
}

impl Drop for ToJsonSchemaError {
    fn drop(self) {
        match self {
            ToJsonSchemaError::DuplicateDeclarations(_value) => {}
            ToJsonSchemaError::DuplicateContext(_value) => {}
            ToJsonSchemaError::DuplicatePrincipalOrResource(_value) => {}
            ToJsonSchemaError::NoPrincipalOrResource(_value) => {}
            ToJsonSchemaError::DuplicateNamespaces(_value) => {}
            ToJsonSchemaError::UnknownTypeName(_value) => {}
            ToJsonSchemaError::ReservedName(_value) => {}
            ToJsonSchemaError::ReservedSchemaKeyword(_value) => {}
        }
    }
}

impl CloneIn for MissingOrEmpty {
    fn clone_in(&self, alloc: Global) -> Result<Self, AllocError> {
        match self {
            MissingOrEmpty::Missing => Ok(MissingOrEmpty::Missing),
            MissingOrEmpty::Empty { loc } => Ok(MissingOrEmpty::Empty { loc: *loc }),
        }
    }
}

impl CloneIn for DuplicateDeclarations {
    fn clone_in(&self, alloc: Global) -> Result<Self, AllocError> {
        Ok(DuplicateDeclarations {
            decl: self.decl.clone_in(alloc)?,
            loc1: self.loc1,
            loc2: self.loc2,
        })
    }
}

impl CloneIn for DuplicateContext {
    fn clone_in(&self, alloc: Global) -> Result<Self, AllocError> {
        Ok(DuplicateContext {
            name: self.name.clone_in(alloc)?,
            loc1: self.loc1,
            loc2: self.loc2,
        })
    }
}

impl CloneIn for DuplicatePrincipalOrResource {
    fn clone_in(&self, alloc: Global) -> Result<Self, AllocError> {
        Ok(DuplicatePrincipalOrResource {
            name: self.name.clone_in(alloc)?,
            kind: self.kind,
            loc1: self.loc1,
            loc2: self.loc2,
        })
    }
}

impl CloneIn for NoPrincipalOrResource {
    fn clone_in(&self, alloc: Global) -> Result<Self, AllocError> {
        Ok(NoPrincipalOrResource {
            kind: self.kind,
            name: self.name.clone_in(alloc)?,
            missing_or_empty: self.missing_or_empty.clone_in(alloc)?,
            name_loc: self.name_loc,
        })
    }
}

impl CloneIn for DuplicateNamespace {
    fn clone_in(&self, alloc: Global) -> Result<Self, AllocError> {
        Ok(DuplicateNamespace {
            namespace_id: self.namespace_id.clone_in(alloc)?,
            loc1: self.loc1,
            loc2: self.loc2,
        })
    }
}

impl CloneIn for UnknownTypeName {
    fn clone_in(&self, alloc: Global) -> Result<Self, AllocError> {
        Ok(UnknownTypeName {
            name: self.name.clone_in(alloc)?,
            loc: self.loc,
        })
    }
}

impl CloneIn for ReservedName {
    fn clone_in(&self, alloc: Global) -> Result<Self, AllocError> {
        Ok(ReservedName {
            name: self.name.clone_in(alloc)?,
            loc: self.loc,
        })
    }
}

impl CloneIn for ReservedSchemaKeyword {
    fn clone_in(&self, alloc: Global) -> Result<Self, AllocError> {
        Ok(ReservedSchemaKeyword {
            keyword: self.keyword.clone_in(alloc)?,
            loc: self.loc,
        })
    }
}

impl CloneIn for ToJsonSchemaError {
    fn clone_in(&self, alloc: Global) -> Result<Self, AllocError> {
        match self {
            ToJsonSchemaError::DuplicateDeclarations(fault) => Ok(
                ToJsonSchemaError::DuplicateDeclarations(fault.clone_in(alloc)?),
            ),
            ToJsonSchemaError::DuplicateContext(fault) => {
                Ok(ToJsonSchemaError::DuplicateContext(fault.clone_in(alloc)?))
            }
            ToJsonSchemaError::DuplicatePrincipalOrResource(fault) => Ok(
                ToJsonSchemaError::DuplicatePrincipalOrResource(fault.clone_in(alloc)?),
            ),
            ToJsonSchemaError::NoPrincipalOrResource(fault) => Ok(
                ToJsonSchemaError::NoPrincipalOrResource(fault.clone_in(alloc)?),
            ),
            ToJsonSchemaError::DuplicateNamespaces(fault) => Ok(
                ToJsonSchemaError::DuplicateNamespaces(fault.clone_in(alloc)?),
            ),
            ToJsonSchemaError::UnknownTypeName(fault) => {
                Ok(ToJsonSchemaError::UnknownTypeName(fault.clone_in(alloc)?))
            }
            ToJsonSchemaError::ReservedName(fault) => {
                Ok(ToJsonSchemaError::ReservedName(fault.clone_in(alloc)?))
            }
            ToJsonSchemaError::ReservedSchemaKeyword(fault) => Ok(
                ToJsonSchemaError::ReservedSchemaKeyword(fault.clone_in(alloc)?),
            ),
        }
    }
}
