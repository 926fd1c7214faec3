use schema_build::CedarSchemaError;

/// Why two texts are not compared. Neither of the first two holds an error for want of memory.
#[derive(Drop)]
pub enum InclusionError {
    /// The old text is no schema.
    Old(CedarSchemaError),
    /// The new text is no schema, and the old one is.
    New(CedarSchemaError),
    /// Out of memory.
    Memory,
}
