//! Entity types and actions of a fragment, built.
#![tactic(auto)]

pub mod actions;
pub mod kinds;
mod meant;

pub use actions::action_kinds;
pub use kinds::entity_kinds;
