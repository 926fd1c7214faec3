//! The walk of a fragment: what it meets, in order, and the visitors that it tells.
#![tactic(auto)]

pub mod bare;
pub mod laws;
pub mod lent_part;
pub mod visitor;
pub mod walk_fragments;
pub mod walk_items;
pub mod walk_types;

pub use bare::{is_bare_action, is_bare_entity};
pub use lent_part::LentPart;
pub use visitor::Visitor;
pub use walk_fragments::{walk_fragment, walk_namespace};
pub use walk_items::{walk_action, walk_common, walk_context, walk_entity};
pub use walk_types::walk_type;
