//! Built schemas as canonical text, and what stands against it.
#![tactic(auto)]

mod actions;
pub mod captured;
mod entity_types;
mod items;
pub mod laws;
mod names;
mod printing;
mod pushing;
mod rows;
pub mod to_text;
mod types;

pub use captured::last_word;
pub use rows::sorted_set;
pub use to_text::uncaptured_schema_text;
