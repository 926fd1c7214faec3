//! What JSON values say in the deprecated form of schemas, or the first fault of reading them.
#![tactic(auto)]

mod action_ids;
mod actions;
mod entity_types;
pub mod fragments;
mod namespaces;
mod readable;
mod shapes;
mod tables;
mod types;

pub use fragments::read_fragment;
