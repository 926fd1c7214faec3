//! The fragment that is recovered of a built schema, its text, and what stands against them.
#![tactic(auto)]

mod actions;
mod entity_types;
pub mod fragment;
mod names;
mod namespaces;
mod sets;
pub mod text;
mod whole;

pub use fragment::recovered_fragment;
pub use text::whole_schema_text;
