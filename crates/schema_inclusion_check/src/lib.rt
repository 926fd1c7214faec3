//! The first value that one built schema admits and another does not.
#![tactic(auto)]

pub mod choices;
pub mod entities;
pub mod entity_values;
pub mod ids_between;
pub mod laws;
mod missing;
pub mod parts;
pub mod requests;
pub mod schemas;
mod seek;

pub use schemas::{Lent, lost_between};
