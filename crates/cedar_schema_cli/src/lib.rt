//! The program `cedar-schema` as a library: words, files and the standard input in, two outputs and a status out.
#![tactic(auto)]

pub mod answer;
pub mod run;
pub mod usage;

pub use run::run_cli;
