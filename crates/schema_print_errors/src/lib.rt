//! Why a fragment cannot be printed as a Cedar schema, and what is said of it.
#![tactic(auto)]

pub mod syntax_error;
pub mod syntax_error_texts;

pub use syntax_error::{
    NameCollisionsError, ToCedarSchemaSyntaxError, UnconvertibleEntityTypeShapeError,
};
