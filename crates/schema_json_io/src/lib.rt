//! Fragments read from JSON texts and values, and written as JSON values.
#![tactic(auto)]

pub mod advice;
pub mod floats;
pub mod read;
pub mod shape_faults;

pub use cedar_data::Diagnostic;
pub use read::{FragmentJson, from_json_str, from_json_value};
pub use schema_json_errors::{JsonAdvice, JsonDeserializationError, JsonFault};
pub use schema_json_values::{WriteJson, fragment_value};
