//! The faults of a tree, which keep it from being a fragment, and what it is warned of.
#![tactic(auto)]

pub mod faults;
mod members;
mod names_in;
pub mod shadowing;
