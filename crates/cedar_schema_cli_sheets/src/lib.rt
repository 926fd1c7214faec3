//! Reports of many texts, written one after another: the first of them, and how many more there are.
#![tactic(auto)]

pub mod items;
pub mod sheet;

pub use sheet::Sheet;
