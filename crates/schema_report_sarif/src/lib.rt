//! Reports as a SARIF log, which code scanners and editors read.
#![tactic(auto)]

mod regions;
mod results;
pub mod sarif;
mod uris;
mod values;

pub use sarif::{Found, push_sarif};
