ghost use Rattle.std.specs.Prelude.{◌≡◌};

use cedar_data::Boxed;
use schema_syntax_errors::UserError;
use std::alloc::{AllocError, AllocFailed};

/// Why sites were not read: out of memory, or a site has a fault, which stands in a box, since each level hands it up.
#[derive(Drop)]
pub enum Stopped {
    /// Out of memory.
    Memory,
    /// A site has this fault.
    User(Boxed<UserError>),
}

impl From<AllocError> for Stopped {
    ghost use Rattle.schema_syntax_reader.specs.declared.stopped.Stopped.TheVariants.{Memory};

    ghost from_gives = { λ _ stopped. stopped ≡ Memory };

    fn from(_error: AllocError) -> Stopped {
        Stopped::Memory
    }
}

impl<T: Drop> From<AllocFailed<T>> for Stopped {
    ghost use Rattle.schema_syntax_reader.specs.declared.stopped.Stopped.TheVariants.{Memory};

    ghost from_gives = { λ _ stopped. stopped ≡ Memory };

    fn from(_error: AllocFailed<T>) -> Stopped {
        Stopped::Memory
    }
}
