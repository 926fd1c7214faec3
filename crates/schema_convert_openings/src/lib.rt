//! The first of a list's items that stands before, and the namespaces of a tree: the openings of each name as one.
#![tactic(auto)]

pub mod joined;
mod openings;
pub mod repeats;
