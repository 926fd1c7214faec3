//! What the words and strings of a schema's syntax stand for: its user faults, and the tree of a syntax without one.
#![tactic(auto)]

mod actions;
pub mod annotations;
mod decls;
pub mod items;
pub mod lawful_tree;
pub mod names;
mod notes;
mod parts;
pub mod paths;
pub mod stopped;
mod strings;
mod types;
mod words;

pub use annotations::deduplicate_annotations;
pub use items::{declared, item};
pub use lawful_tree::tree_of_tokens;
pub use stopped::Stopped;
