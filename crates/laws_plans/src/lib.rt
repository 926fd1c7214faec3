//! Laws of what the program is to do: every list of words has one plan for every input.
#![tactic(auto)]

pub mod laws;
