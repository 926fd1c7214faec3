use std::alloc::{AllocError, AllocFailed};

/// Why a walk stopped: the first that it was to refuse, or out of memory. It is small, since each level of the walk
/// hands it up.
#[derive(Drop)]
pub(crate) enum Refused<T> {
    First(T),
    Memory,
}

impl<T: Drop> From<AllocError> for Refused<T> {
    ghost use Rattle.std.specs.Prelude.{◌≡◌};
    ghost use Rattle.schema_build_checks.specs.declared.refused.Refused.TheVariants.{Memory};

    ghost from_gives = { λ _ e. e ≡ Memory };

    fn from(_e: AllocError) -> Refused<T> {
        Refused::Memory
    }
}
