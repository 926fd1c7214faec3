//! Which names of a fragment may be written in a role at a place of a schema, each as it is spelled there.
#![tactic(auto)]

mod actions;
mod asked;
mod homes;
pub mod laws;
pub mod offered;
mod words;

pub use offered::offers;
