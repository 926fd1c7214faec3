//! Why a built schema does not admit a value.
#![tactic(auto)]

pub mod explain;
mod kinds;
pub mod laws;
mod misfits;
pub mod places;
pub mod reasons;
mod seek;

pub use explain::reason_of;
pub use places::{Cause, Shape, Step};
pub use reasons::Reason;
