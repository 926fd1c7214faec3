//! What is looked for in a JSON text beside what it says: keys that stand twice in an object, and numbers.
#![tactic(auto)]

pub mod looking;
mod numbers;
pub mod plain;
mod repeated_keys;

pub use looking::{Findings, look_through};
pub use plain::plain_value;
