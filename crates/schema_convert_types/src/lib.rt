//! What the names and types of a schema's tree become in a fragment.
#![tactic(auto)]

pub mod into_variant;
pub mod items;
pub mod names;
pub mod types;

pub use into_variant::IntoVariant;
pub use names::{path_to_internal_name, path_to_raw_name};
pub use types::cedar_type_to_json_type;
