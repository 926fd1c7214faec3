//! Whether two schema texts mean the same, however they are written.
#![tactic(auto)]

pub mod errors;
pub mod reply;
pub mod same;

pub use errors::SameError;
pub use reply::same_reply;
pub use same::same_meaning;
