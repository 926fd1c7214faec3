//! Laws of reports as JSON and as SARIF: what is written is read back.
#![tactic(auto)]

pub mod laws;
