//! The pieces of schema texts, which are their tokens and comments, laid out anew.
#![tactic(auto)]

pub mod context;
pub mod laws;
pub mod writer;

pub use writer::write_layout;
