//! Fragments written as JSON values.
#![tactic(auto)]

mod actions;
mod annotations;
mod entity_types;
pub mod fragments;
mod leaves;
mod types;

pub use fragments::{WriteJson, fragment_value};
