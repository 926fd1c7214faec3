//! Which definition a reference means, and which references of a fragment mean none.
#![tactic(auto)]

pub mod action_types;
pub mod gather;
pub mod targets;
pub mod tried;

pub use gather::{UndefinedReferences, gather_undefined, gather_undefined_alone};
