//! What is written of a value that a schema can admit.
#![tactic(auto)]

pub mod keys;
pub mod schema_values;
pub mod vals;

pub use keys::entity_text;
pub use schema_values::schema_value_text;
pub use vals::{push_entries, push_val};
