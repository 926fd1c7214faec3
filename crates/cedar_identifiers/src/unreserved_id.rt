ghost use Rattle.std.specs.Prelude.{◌≡◌, false};
ghost use Rattle.cedar_identifiers.specs.Words.{is_cedar};

use crate::id::Id;
use crate::name_fault::NameFault;
use crate::name_kind::NameKind;
use crate::name_reader::read_name;
use crate::reserved::is_cedar;
use cedar_data::CloneIn;
use std::alloc::{AllocError, Global};

/// A word that may stand in a declared name: any `Id` but `__cedar`.
#[derive(PartialEq, Eq, PartialOrd, Ord, Hash)]
pub struct UnreservedId {
    pub id: Id,
    pub ghost unreserved: { is_cedar id.text ≡ false },
}

impl Drop for UnreservedId {
    fn drop(self) {
        let UnreservedId { id: _id } = self;
    }
}

impl UnreservedId {
    ghost use Rattle.std.specs.Prelude.{true, [], ◌∷◌, IfOk, IfErr, MatchOption};
    ghost use Rattle.cedar_identifiers.specs.NameReading.{ReadsAs, NameFaultOf};

    /// Reads a word that stands alone, with nothing around it, or tells the fault that keeps the text from being one.
    pub fn from_normalized_str(alloc: Global, s: &str) -> Result<UnreservedId, NameFault>
        ensures ok { IfOk result (λ id. ReadsAs NameKind.UnreservedId s.now (id.id.text ∷ [])) }
        ensures err { IfErr result (NameFaultOf NameKind.UnreservedId s.now) }
    {
        let name = read_name(alloc, NameKind::UnreservedId, s)?;
        Ok(UnreservedId {
            id: name.into_first(),
        })
    }

    /// The word as one that is not `__cedar`, and `None` exactly where it is.
    pub fn from_id(id: Id) -> Option<UnreservedId>
        ensures { MatchOption result (is_cedar id.text ≡ true) (λ unreserved. unreserved.id ≡ id) }
    {
        if is_cedar(id.as_str()) {
            None
        } else {
            Some(UnreservedId { id })
        }
    }

    /// The word as one that may stand in any name.
    pub fn into_id(self) -> Id
        ensures { result ≡ self.id }
    {
        let UnreservedId { id } = self;
        id
    }

    /// The word, whose bytes are its characters.
    pub fn as_str(&self) -> &str
        ensures { result.now ≡ self.now.id.text }
    {
        self.id.as_str()
    }
}

impl CloneIn for UnreservedId {
    fn clone_in(&self, alloc: Global) -> Result<Self, AllocError> {
        Ok(UnreservedId {
            id: self.id.clone_in(alloc)?,
        })
    }
}
