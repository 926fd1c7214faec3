//! Whether a new schema text admits all that an old one does, with a value that it does not admit.
#![tactic(auto)]

pub mod check;
pub mod errors;

pub use check::{Inclusion, check_inclusion};
pub use errors::InclusionError;
