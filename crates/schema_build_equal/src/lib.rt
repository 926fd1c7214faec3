//! Whether two built schemas say the same, told without memory.
#![tactic(auto)]

mod actions;
mod entity_types;
mod joined;
pub mod schemas;
mod sets;
mod types;

pub use schemas::same_content;
