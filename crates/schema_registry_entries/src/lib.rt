//! Distinct texts by the order in which they came, found by their hashes.
#![tactic(auto)]

pub mod entries;

pub use entries::Entries;
