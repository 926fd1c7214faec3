ghost use Rattle.std.specs.Prelude.{◌≡◌, true, false, IfOk, IfErr};
ghost use Rattle.schema_json.specs.Keywords.{is_keyword_name};

use crate::reserved::ReservedCommonTypeBasenameError;
use crate::types::Type;
use cedar_data::{CloneIn, Loc};
use cedar_identifiers::{Annotations, UnreservedId};
use std::alloc::{AllocError, Global};

/// The name of a declared common type.
#[derive(PartialEq, Eq, PartialOrd, Ord, Hash)]
pub struct CommonTypeId {
    pub id: UnreservedId,
}

impl Drop for CommonTypeId {
    fn drop(self) {
        let CommonTypeId { id: _id } = self;
    }
}

/// A declared common type: what it stands for, with a place that no comparison sees.
#[derive_where(PartialEq, Eq, PartialOrd, Ord, Hash; N)]
pub struct CommonType<N> {
    pub ty: Type<N>,
    pub annotations: Annotations,
    #[derive_where(skip(EqHashOrd))]
    pub loc: Option<Loc>,
}

impl<N: Drop> Drop for CommonType<N> {
    fn drop(self) {
        let CommonType {
            ty: _ty,
            annotations: _annotations,
            loc: _loc,
        } = self;
    }
}

impl CommonTypeId {
    /// The word as the name of a common type, refused where it is `Bool`, `Boolean`, `Entity`, `Extension`, `Long`,
    /// `Record`, `Set` or `String`.
    pub fn new(id: UnreservedId) -> Result<CommonTypeId, ReservedCommonTypeBasenameError>
        ensures ok { IfOk result (λ made. (made.id ≡ id) × (is_keyword_name id.id.text ≡ false)) }
        ensures err { IfErr result (λ error. (error.id ≡ id) × (is_keyword_name id.id.text ≡ true)) }
    {
        if is_keyword_name(id.as_str()) {
            Err(ReservedCommonTypeBasenameError { id })
        } else {
            Ok(CommonTypeId { id })
        }
    }

    /// The word as the name of a common type, whatever it is.
    pub fn unchecked(id: UnreservedId) -> CommonTypeId
        ensures { result.id ≡ id }
    {
        CommonTypeId { id }
    }

    /// The word, lent.
    pub fn as_unreserved(&self) -> &UnreservedId
        ensures { result.now ≡ self.now.id }
    {
        &self.id
    }

    /// The word itself.
    pub fn into_unreserved(self) -> UnreservedId
        ensures { result ≡ self.id }
    {
        let CommonTypeId { id } = self;
        id
    }
}

/// Whether the word names a type or a kind of types already: `Bool`, `Boolean`, `Entity`, `Extension`, `Long`,
/// `Record`, `Set` and `String` do.
pub fn is_keyword_name(word: &str) -> bool
    ensures { result ≡ is_keyword_name word.now }
{
    match word {
        "Bool" | "Boolean" | "Entity" | "Extension" | "Long" | "Record" | "Set" | "String" => true,
        _ => false,
    }
}

impl CloneIn for CommonTypeId {
    fn clone_in(&self, alloc: Global) -> Result<Self, AllocError> {
        Ok(CommonTypeId {
            id: self.id.clone_in(alloc)?,
        })
    }
}

impl<N: CloneIn> CloneIn for CommonType<N> {
    fn clone_in(&self, alloc: Global) -> Result<Self, AllocError> {
        Ok(CommonType {
            ty: self.ty.clone_in(alloc)?,
            annotations: self.annotations.clone_in(alloc)?,
            loc: self.loc,
        })
    }
}
