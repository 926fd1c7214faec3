//! How a text is written as a JSON string.
#![tactic(auto)]

pub mod pushing;
pub mod quotes;
