//! A registry of schemas: one entry for each meaning, however it is written.
#![tactic(auto)]

pub mod laws;
pub mod registry;
pub mod replies;
pub mod run;
pub mod submit_error;

pub use laws::{entries_are_meanings, one_list_of_meanings};
pub use registry::Registry;
pub use run::{Register, run_registry};
pub use submit_error::SubmitError;
