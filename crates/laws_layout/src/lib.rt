//! Laws of schema texts that are laid out anew.
#![tactic(auto)]

pub mod meanings;
