use sqlite::Error;

/// Why a table was not opened.
#[derive(Clone, Copy, Debug, Drop)]
pub enum TableError {
    /// The database holds something else than the table of a registry.
    Foreign,
    /// The database failed for this reason.
    Database(Error),
}

impl From<Error> for TableError {
    ghost use Rattle.std.specs.Prelude.{◌≡◌};
    ghost use Rattle.schema_registry_table.specs.declared.error.TableError.TheVariants.{Database};

    ghost from_gives = { λ reason e. e ≡ Database reason };

    fn from(reason: Error) -> TableError {
        TableError::Database(reason)
    }
}
