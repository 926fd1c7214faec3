//! The fragment of a text of which nothing is to be said, made as the text is read.
#![tactic(auto)]

mod gathering;
mod plain;
pub mod reading;
