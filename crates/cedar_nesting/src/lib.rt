//! How deep the brackets of an input are nested.
#![tactic(auto)]

pub mod nesting;

pub use nesting::{DEEPEST, Place, is_too_deep};
