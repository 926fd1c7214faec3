//! The text of names, strings, annotations and types, as a printed schema has it.
#![tactic(auto)]

pub mod notes;
pub mod pushing;
pub mod types;

pub use notes::{push_attribute_name, push_notes};
pub use pushing::{NUM_INDENTATION_SPACES, deeper, push, push_name, push_spaces, push_string};
pub use types::{has_no_attributes, push_record, push_type};
