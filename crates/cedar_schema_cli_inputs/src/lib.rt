//! What reading the inputs of `cedar-schema` gives: files by their paths, and the standard input.
#![tactic(auto)]

pub mod inputs;

pub use inputs::{Given, is_standard, read_file, read_standard};
