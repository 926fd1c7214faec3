//! What a fragment defines, and what it declares, looked up in the fragment itself: no list of names is made.
#![tactic(auto)]

mod builtins_in;
pub mod declared_defs;
mod declared_in;
pub mod defined_in;
pub mod fragment_defs;
mod namespaces;
pub mod near;
mod sought;

pub use declared_defs::DeclaredDefs;
pub use defined_in::{is_common, is_common_behind, is_entity, is_entity_behind};
pub use fragment_defs::FragmentDefs;
pub use near::Recent;
