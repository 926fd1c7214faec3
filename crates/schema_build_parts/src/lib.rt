//! What is built of the declarations of a fragment, and the fault that keeps a fragment from being a schema.
#![tactic(auto)]

pub mod declarations;
mod hierarchies;
mod meanings;
pub mod parts;
mod types;

pub use declarations::check_declarations;
pub use parts::{FragmentParts, fragment_parts};
