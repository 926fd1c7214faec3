ghost use Rattle.std.specs.Prelude.{◌≡◌, true};
ghost use Rattle.cedar_data.specs.Words.{is_word};

use crate::name_fault::NameFault;
use crate::name_kind::NameKind;
use crate::name_reader::read_any_id;
use cedar_data::{CloneIn, Text};
use std::alloc::{AllocError, Global};

/// Any word: a letter or `_`, then letters, digits and `_`.
#[derive(PartialEq, Eq, PartialOrd, Ord, Hash, Drop)]
pub struct AnyId {
    pub text: Text,
    pub ghost word: { is_word text ≡ true },
}

impl AnyId {
    ghost use Rattle.std.specs.Prelude.{[], ◌∷◌, IfOk, IfErr};
    ghost use Rattle.cedar_identifiers.specs.NameReading.{ReadsAs, NameFaultOf};

    /// Reads a word that stands alone, with nothing around it, or tells the fault that keeps the text from being one.
    pub fn from_normalized_str(alloc: Global, s: &str) -> Result<AnyId, NameFault>
        ensures ok { IfOk result (λ id. ReadsAs NameKind.AnyId s.now (id.text ∷ [])) }
        ensures err { IfErr result (NameFaultOf NameKind.AnyId s.now) }
    {
        read_any_id(alloc, s)
    }

    /// The word, whose bytes are its characters.
    pub fn as_str(&self) -> &str
        ensures { result.now ≡ self.now.text }
    {
        self.text.as_str()
    }
}

impl CloneIn for AnyId {
    fn clone_in(&self, alloc: Global) -> Result<Self, AllocError> {
        Ok(AnyId {
            text: self.text.clone_in(alloc)?,
        })
    }
}
