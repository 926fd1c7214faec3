use cedar_schema_core::RecoverError;
use sqlite::Error;

/// Why a text was not taken into a stored registry.
#[derive(Drop)]
pub enum StoreError {
    /// The text is not valid, for this reason.
    Refused(RecoverError),
    /// Out of memory.
    Memory,
    /// The database failed for this reason.
    Database(Error),
}

impl From<Error> for StoreError {
    ghost use Rattle.std.specs.Prelude.{◌≡◌};
    ghost use Rattle.schema_registry_store.specs.declared.error.StoreError.TheVariants.{Database};

    ghost from_gives = { λ reason e. e ≡ Database reason };

    fn from(reason: Error) -> StoreError {
        StoreError::Database(reason)
    }
}
