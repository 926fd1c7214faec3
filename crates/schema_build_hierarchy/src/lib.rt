//! The hierarchies of entity types and of actions: what is declared in order, the ancestors of each, and what a schema
//! may not have in them.
#![tactic(auto)]

pub mod ancestors;
pub mod declared_types;
pub mod entries;
pub mod external;
mod firsts;
pub mod laws;
mod parents;
mod ranks;
mod use_finder;

pub use ancestors::{action_ancestors, check_action_cycle, entity_ancestors};
pub use declared_types::check_declared_types;
pub use entries::{ActionEntry, EntityEntry, Entry, actions_in_order, entities_in_order};
pub use external::check_external_types;
