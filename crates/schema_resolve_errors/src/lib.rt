//! Why names of a fragment cannot be resolved: references that mean nothing, and what is said of them.
#![tactic(auto)]

mod error_texts;
mod joining;
pub mod name_texts;
pub mod resolve_error;

pub use resolve_error::{ActionNotDefinedError, ResolveError, TypeNotDefinedError};
