//! The command `check`: what is reported of schemas in files, and the status that this gives.
#![tactic(auto)]

pub mod check;
pub mod inputs;
pub mod statuses;

pub use check::check_reply;
pub use statuses::{fault_status, fault_words, joined_status};
