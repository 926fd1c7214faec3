ghost use Rattle.std.specs.Prelude.{◌≡◌, IfOk};
ghost use Rattle.schema_build_errors.specs.declared.schema_error.SchemaError.TheVariants.{Memory};

use crate::schema_error::SchemaError;
use cedar_data::Boxed;
use std::alloc::{AllocError, AllocFailed, Global};
use std::marker::Model;

/// A `SchemaError` of the size of a pointer, which steps of building hand on. Contracts see the error.
#[derive(Drop)]
pub struct Refusal {
    /// The error, and `None` where there is not enough memory.
    fault: Option<Boxed<SchemaError>>,
}

impl Model for Refusal {
    ghost use Rattle.schema_build_errors.specs.Refusals.{error_or_memory};
    ghost use Rattle.schema_build_errors.specs.declared.schema_error.SchemaError.{SchemaError};

    ghost Value = { SchemaError };

    ghost view = { λ r. error_or_memory r.fault };
}

impl Refusal {
    /// That there is not enough memory.
    pub fn memory() -> Refusal
        ensures { result ≡ Memory }
    {
        Refusal { fault: None }
    }

    /// The refusal by this error, or an error when out of memory.
    pub fn new(alloc: Global, error: SchemaError) -> Result<Refusal, AllocError>
        ensures { IfOk result (λ refusal. refusal ≡ error) }
    {
        let fault = Boxed::new(alloc, error)?;
        Ok(Refusal { fault: Some(fault) })
    }

    /// The error, taken out of its box.
    pub fn into_error(self) -> SchemaError
        ensures { result ≡ self }
    {
        let Refusal { fault } = self;
        match fault {
            Some(error) => error.into_inner(),
            None => SchemaError::Memory,
        }
    }
}

impl From<Refusal> for SchemaError {
    ghost from_gives = { λ r e. e ≡ r };

    fn from(refusal: Refusal) -> SchemaError {
        refusal.into_error()
    }
}

impl From<AllocError> for Refusal {
    ghost use Rattle.std.specs.Prelude.{◌≡◌};
    ghost use Rattle.schema_build_errors.specs.declared.schema_error.SchemaError.TheVariants.{Memory};

    ghost from_gives = { λ _ e. e ≡ Memory };

    fn from(_e: AllocError) -> Refusal {
        Refusal::memory()
    }
}

impl<T: Drop> From<AllocFailed<T>> for Refusal {
    ghost use Rattle.std.specs.Prelude.{◌≡◌};
    ghost use Rattle.schema_build_errors.specs.declared.schema_error.SchemaError.TheVariants.{Memory};

    ghost from_gives = { λ _ e. e ≡ Memory };

    fn from(_e: AllocFailed<T>) -> Refusal {
        Refusal::memory()
    }
}
