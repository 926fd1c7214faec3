//! Built schemas: what a fragment means, or the fault that keeps it from meaning anything.
#![tactic(auto)]

mod assembly;
pub mod from_old_json;
pub mod from_text;
pub mod laws;
pub mod schema;
pub mod text_errors;

pub use cedar_data::Diagnostic;
pub use from_text::FromCedarSchema;
pub use laws::{one_build_fault, one_fragment_meaning};
pub use schema::ValidatorSchema;
pub use schema_build_errors::{
    CapturedItem, RecoveryError, ReferenceCaptured, SchemaError, ToTextError,
};
pub use text_errors::{CedarSchemaError, CedarSchemaParseError};
