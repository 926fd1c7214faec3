//! Which names are defined: what a fragment declares, and what is there in every schema.
#![tactic(auto)]

pub mod declared;
pub mod defined;

pub use declared::single_fragment;
pub use defined::all_definitions;
