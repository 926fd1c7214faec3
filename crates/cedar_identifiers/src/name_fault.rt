ghost use Rattle.std.specs.Prelude.{◌≡◌, [], IsOkAnd};
ghost use Rattle.cedar_identifiers.specs.FaultTexts.{name_fault_text};

use cedar_data::{CloneIn, Diagnostic, Label, Severity, Text, around, message};
use std::alloc::{AllocError, AllocFailed, Global};

/// Why a text is no name: it ends where a word is due, a piece cannot stand where it does, no piece stands there, it
/// has blanks, or a component is a reserved word.
#[derive(Drop)]
pub enum NameFault {
    /// A word is due at the end of the text.
    End,
    /// This piece cannot stand behind the pieces before it.
    Token(Text),
    /// No piece stands at some place.
    Invalid,
    /// The text has blanks.
    NotNormalized,
    /// No component may be this word.
    Reserved(Text),
    /// Out of memory.
    Memory,
}

impl Diagnostic for NameFault {
    ghost text = { name_fault_text };

    fn text(&self, alloc: Global) -> Result<Text, AllocError> {
        match self {
            NameFault::End => message(alloc, "unexpected end of input"),
            NameFault::Token(token) => around(alloc, "unexpected token `", token, "`"),
            NameFault::Invalid => message(alloc, "invalid token"),
            NameFault::NotNormalized => message(alloc, "the name is not normalized"),
            NameFault::Reserved(word) => around(alloc, "the word `", word, "` is reserved"),
            NameFault::Memory => message(alloc, "out of memory"),
        }
    }

    fn help(&self, _alloc: Global, _source: &str) -> Result<Option<Text>, AllocError> {
        Ok(None)
    }

    /// It takes no memory.
    fn labels(&self, alloc: Global) -> Result<Vec<Label>, AllocError>
        ensures none { IsOkAnd result (λ labels. labels.items ≡ []) }
    {
        Ok(Vec::new(alloc))
    }

    fn severity(&self) -> Severity {
        Severity::Error
    }
}

impl From<AllocError> for NameFault {
    ghost use Rattle.cedar_identifiers.specs.declared.name_fault.NameFault.TheVariants.{Memory};

    ghost from_gives = { λ _ e. e ≡ Memory };

    fn from(_e: AllocError) -> NameFault {
        NameFault::Memory
    }
}

impl<T: Drop> From<AllocFailed<T>> for NameFault {
    ghost use Rattle.cedar_identifiers.specs.declared.name_fault.NameFault.TheVariants.{Memory};

    ghost from_gives = { λ _ e. e ≡ Memory };

    fn from(_e: AllocFailed<T>) -> NameFault {
        NameFault::Memory
    }
}

impl CloneIn for NameFault {
    fn clone_in(&self, alloc: Global) -> Result<Self, AllocError> {
        match self {
            NameFault::End => Ok(NameFault::End),
            NameFault::Token(token) => Ok(NameFault::Token(token.clone_in(alloc)?)),
            NameFault::Invalid => Ok(NameFault::Invalid),
            NameFault::NotNormalized => Ok(NameFault::NotNormalized),
            NameFault::Reserved(word) => Ok(NameFault::Reserved(word.clone_in(alloc)?)),
            NameFault::Memory => Ok(NameFault::Memory),
        }
    }
}
