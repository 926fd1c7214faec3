ghost use Rattle.std.specs.Prelude.{◌≡◌, List, IfOk};
ghost use Rattle.schema_resolve.specs.Faults.{NamesFirst};
ghost use Rattle.schema_resolve_targets.specs.Undefined.{Undefined};

use cedar_data::Boxed;
use schema_resolve_errors::ResolveError;
use std::alloc::{AllocError, AllocFailed, Global};
use std::marker::Model;

// Why names are not replaced, which contracts see as the error: the error stands in a box, and is none when out of
// memory. It is small, since each level hands it up.
#[derive(Drop)]
pub(crate) struct Stop {
    error: Option<Boxed<ResolveError>>,
}

impl Model for Stop {
    ghost use Rattle.std.specs.Option.{unwrap_or};
    ghost use Rattle.schema_resolve_errors.specs.declared.resolve_error.ResolveError.{ResolveError};
    ghost use Rattle.schema_resolve_errors.specs.declared.resolve_error.ResolveError.TheVariants.{Memory};

    ghost Value = { ResolveError };

    ghost view = { λ s. unwrap_or s.error Memory };
}

impl Stop {
    // The error, in a box.
    pub(crate) fn new(alloc: Global, error: ResolveError) -> Result<Stop, AllocError>
        ensures same { IfOk result (λ stop. stop ≡ error) }
        ensures named { IfOk result (λ stop. (us : List Undefined) → NamesFirst us error → NamesFirst us stop) }
    {
        Ok(Stop {
            error: Some(Boxed::new(alloc, error)?),
        })
    }

    // The error.
    pub(crate) fn into_error(self) -> ResolveError
        ensures { result ≡ self }
    {
        let Stop { error } = self;
        match error {
            Some(error) => error.into_inner(),
            None => ResolveError::Memory,
        }
    }
}

impl From<AllocError> for Stop {
    ghost use Rattle.std.specs.Prelude.{◌≡◌};
    ghost use Rattle.schema_resolve_errors.specs.declared.resolve_error.ResolveError.TheVariants.{Memory};

    ghost from_gives = { λ _ e. e ≡ Memory };

    fn from(_e: AllocError) -> Stop {
        Stop { error: None }
    }
}

impl<T: Drop> From<AllocFailed<T>> for Stop {
    ghost use Rattle.std.specs.Prelude.{◌≡◌};
    ghost use Rattle.schema_resolve_errors.specs.declared.resolve_error.ResolveError.TheVariants.{Memory};

    ghost from_gives = { λ _ e. e ≡ Memory };

    fn from(_e: AllocFailed<T>) -> Stop {
        Stop { error: None }
    }
}

// The answer, with the error itself.
pub(crate) fn or_error<T>(answer: Result<T, Stop>) -> Result<T, ResolveError>
    ensures { result ≡ answer }
{
    match answer {
        Ok(out) => Ok(out),
        Err(stop) => Err(stop.into_error()),
    }
}
