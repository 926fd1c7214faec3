//! The compact JSON text of a fragment, written as it is gone through.
#![tactic(auto)]

mod actions;
mod annotations;
mod entity_types;
pub mod fragments;
mod leaves;
pub mod members;
mod types;

pub use fragments::fragment_text;
