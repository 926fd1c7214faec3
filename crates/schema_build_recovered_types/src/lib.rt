//! What a built type is as a type of a fragment, or the first of what no fragment says.
#![tactic(auto)]

pub mod names;
pub mod types;
