ghost use Rattle.std.specs.Prelude.{◌≡◌, true};
ghost use Rattle.cedar_identifiers.specs.Words.{is_id};

use crate::name_fault::NameFault;
use crate::name_kind::NameKind;
use crate::name_reader::read_name;
use cedar_data::{CloneIn, Text};
use std::alloc::{AllocError, Global};

/// A word that may stand in a name: none of `in`, `true`, `false`, `if`, `then`, `else`, `is`, `like` and `has`.
#[derive(PartialEq, Eq, PartialOrd, Ord, Hash)]
pub struct Id {
    pub text: Text,
    pub ghost word: { is_id text ≡ true },
}

impl Drop for Id {
    fn drop(self) {
        let Id { text: _text } = self;
    }
}

impl Id {
    ghost use Rattle.std.specs.Prelude.{[], ◌∷◌, IfOk, IfErr};
    ghost use Rattle.cedar_identifiers.specs.NameReading.{ReadsAs, NameFaultOf};

    /// Reads a word that stands alone, with nothing around it, or tells the fault that keeps the text from being one.
    pub fn from_normalized_str(alloc: Global, s: &str) -> Result<Id, NameFault>
        ensures ok { IfOk result (λ id. ReadsAs NameKind.Id s.now (id.text ∷ [])) }
        ensures err { IfErr result (NameFaultOf NameKind.Id s.now) }
    {
        let name = read_name(alloc, NameKind::Id, s)?;
        Ok(name.into_first())
    }

    /// The word, whose bytes are its characters.
    pub fn as_str(&self) -> &str
        ensures { result.now ≡ self.now.text }
    {
        self.text.as_str()
    }
}

impl CloneIn for Id {
    fn clone_in(&self, alloc: Global) -> Result<Self, AllocError> {
        Ok(Id {
            text: self.text.clone_in(alloc)?,
        })
    }
}
