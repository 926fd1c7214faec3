use std::alloc::{AllocError, AllocFailed};
use thiserror::Error;

/// Why a list of names is no extension table, with the position of the first name that keeps it from being one.
#[derive(Clone, Copy, Debug, PartialEq, Eq, Error)]
pub enum TableError {
    #[error("a name is not a word")]
    NotWord(usize),
    #[error("a name is reserved")]
    Reserved(usize),
    #[error("a name is builtin")]
    Builtin(usize),
    #[error("a name is repeated")]
    Repeated(usize),
    #[error("out of memory")]
    Memory,
}

impl From<AllocError> for TableError {
    ghost use Rattle.cedar_names.specs.declared.table_error.TableError.TheVariants.{Memory};
    ghost use Rattle.std.specs.Prelude.{◌≡◌};

    ghost from_gives = { λ _ e. e ≡ Memory };

    fn from(_e: AllocError) -> TableError {
        TableError::Memory
    }
}

impl<T: Drop> From<AllocFailed<T>> for TableError {
    ghost use Rattle.cedar_names.specs.declared.table_error.TableError.TheVariants.{Memory};
    ghost use Rattle.std.specs.Prelude.{◌≡◌};

    ghost from_gives = { λ _ e. e ≡ Memory };

    fn from(_e: AllocFailed<T>) -> TableError {
        TableError::Memory
    }
}
