//! Why a JSON text or value is no fragment, and what is said and advised of it.
#![tactic(auto)]

pub mod json_error;
pub mod json_fault;
mod json_fault_texts;

pub use json_error::{JsonAdvice, JsonDeserializationError};
pub use json_fault::JsonFault;
