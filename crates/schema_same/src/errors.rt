use cedar_schema_core_faults::RecoverError;

/// Why two texts are not compared.
#[derive(Drop)]
pub enum SameError {
    /// The first text is no schema: a `Parse` or a `Schema` error.
    First(RecoverError),
    /// The second text is no schema, and the first one is: a `Parse` or a `Schema` error.
    Second(RecoverError),
    /// Out of memory.
    Memory,
}
