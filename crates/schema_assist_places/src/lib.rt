//! What may stand behind tokens of a schema: the kinds that may come next, the role of a word that may, and the
//! namespace around it.
#![tactic(auto)]

pub mod duty;
pub mod laws;
pub mod names;
pub mod place;
pub mod role;

pub use duty::Duty;
pub use place::{Place, Standing, Stopped, standing_behind};
pub use role::Role;
