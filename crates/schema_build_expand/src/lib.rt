//! What types stand for, with every common type replaced.
#![tactic(auto)]

pub mod commons;
pub mod expand;
pub mod expand_all;
pub mod laws;
pub mod meanings;
mod ranks;

pub use commons::expand_commons;
pub use expand::expand_type;
pub use expand_all::expansions;
pub use meanings::{Meanings, Target};
