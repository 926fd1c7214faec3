//! Why a text is no schema: the faults of parsing, what they say, what they advise, and where they point to.
#![tactic(auto)]

pub mod annotation_error;
pub mod expected;
mod help;
pub mod labels;
pub mod laws;
pub mod parse_error;
pub mod parse_errors;
pub mod parse_schema_error;
pub mod unescape_error;
pub mod user_error;

pub use crate::parse_errors::ParseErrors;
pub use annotation_error::AnnotationError;
pub use expected::expected_text;
pub use parse_error::ParseError;
pub use parse_schema_error::ParseSchemaError;
pub use unescape_error::UnescapeError;
pub use user_error::UserError;
