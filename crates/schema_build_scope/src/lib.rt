//! What the names of a fragment mean where its types are expanded.
#![tactic(auto)]

mod builtins;
pub mod expansions;
pub mod fragment_names;
pub mod laws;
mod lent_commons;
mod lent_uses;
mod meant;
pub mod names_in;
mod ranks;
pub mod references;

pub use expansions::{expand_in, expand_used_commons};
pub use fragment_names::FragmentNames;
pub use names_in::NamesIn;
pub use references::check_references;
