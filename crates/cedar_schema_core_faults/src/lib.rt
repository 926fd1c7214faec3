//! Why nothing is recovered from a text, and the lines that report it.
#![tactic(auto)]

pub mod numbers;
pub mod recover_error;
pub mod told;

pub use numbers::number_text;
pub use recover_error::RecoverError;
pub use told::fault_text;
