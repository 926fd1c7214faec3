//! Chains, closure and cycles: what vertices reach, and an order in which each stands behind its targets.
#![tactic(auto)]

pub mod cycles;
pub mod kept;
pub mod order_fault;
pub mod reach;
mod search;

pub use cycles::{least_cyclic, least_marked, order_or_least};
pub use kept::needed;
pub use order_fault::OrderFault;
pub use reach::closure;
