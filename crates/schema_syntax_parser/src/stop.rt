ghost use Rattle.std.specs.Prelude.{◌≡◌};

use std::alloc::{AllocError, AllocFailed};

/// Why nothing was read or built: out of memory, or the tokens, or what stands for them, are not those of a schema.
#[derive(Drop)]
pub enum Stop {
    /// Out of memory.
    Memory,
    /// The tokens, or what stands for them, are not those of a schema.
    Mismatch,
}

impl From<AllocError> for Stop {
    ghost use Rattle.schema_syntax_parser.specs.declared.stop.Stop.TheVariants.{Memory};

    ghost from_gives = { λ _ stop. stop ≡ Memory };

    fn from(_error: AllocError) -> Stop {
        Stop::Memory
    }
}

impl<T: Drop> From<AllocFailed<T>> for Stop {
    ghost use Rattle.schema_syntax_parser.specs.declared.stop.Stop.TheVariants.{Memory};

    ghost from_gives = { λ _ stop. stop ≡ Memory };

    fn from(_error: AllocFailed<T>) -> Stop {
        Stop::Memory
    }
}
