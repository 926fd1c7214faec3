//! Fragments read from JSON values, or the first fault in the way of that.
#![tactic(auto)]

pub mod actions;
mod annotations;
mod conflicts;
pub mod entity_types;
pub mod entries;
pub mod fields;
pub mod fragments;
pub mod laws;
pub mod leaves;
pub mod name_role;
pub mod names;
pub mod namespaces;
pub mod shape_fault;
pub mod tables;
pub mod types;
pub mod words;

pub use fragments::read_fragment;
pub use name_role::NameRole;
pub use shape_fault::ShapeFault;
pub use words::{TypeSite, TypeWord};
