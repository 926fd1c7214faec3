//! A schema text of a size from 1 to 4,096, made by rule: what measures and tries the program where no schema is at
//! hand.
#![tactic(auto)]

pub mod text;

pub use text::{MAX_SIZE, generate_text};
