//! What a built schema holds: its types, its entity types and its actions, and what they stand for.
#![tactic(auto)]

pub mod action;
pub mod entity_type;
pub mod entries;
pub mod laws;
pub mod lookups;
pub mod nesting;
pub mod types;

pub use action::{ValidatorActionId, ValidatorActionKind};
pub use entity_type::{ValidatorEntityType, ValidatorEntityTypeKind};
pub use entries::{ActionEntry, EntityTypeEntry, Keyed};
pub use lookups::get_counted;
pub use nesting::{DEEPEST, is_deeper};
pub use types::Type;
