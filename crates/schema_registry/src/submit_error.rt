ghost use Rattle.std.specs.Prelude.{◌≡◌};

use cedar_schema_core::RecoverError;
use std::alloc::AllocError;

/// Why a text was not taken into a registry.
#[derive(Drop)]
pub enum SubmitError {
    /// The text is not valid, for this reason.
    Refused(RecoverError),
    /// Out of memory.
    Memory,
}

impl From<AllocError> for SubmitError {
    ghost use Rattle.schema_registry.specs.declared.submit_error.SubmitError.TheVariants.{Memory};

    ghost from_gives = { λ _ e. e ≡ Memory };

    fn from(_e: AllocError) -> SubmitError {
        SubmitError::Memory
    }
}
