//! Checks of a fragment before a schema is built of it: each refuses by one row of the table of faults.
#![tactic(auto)]

pub mod called_action;
pub mod declared_at;
pub mod hiding_actions;
pub mod hiding_types;
mod least;
mod refused;
mod visitors;
pub mod walk_faults;

pub use called_action::check_action_types;
pub use hiding_actions::check_action_shadowing;
pub use hiding_types::check_type_shadowing;
pub use walk_faults::{check_extension_types, check_features, has_fitting_parts};
