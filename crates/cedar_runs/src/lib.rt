//! How a program runs: words ask for a command, one source is read, and a reply goes to two sinks.
#![tactic(auto)]

pub mod calls;
pub mod delivery;
pub mod program;
pub mod reply;
pub mod run;
pub mod status;
pub mod std_streams;

pub use calls::{Call, call_of};
pub use delivery::deliver;
pub use program::Program;
pub use reply::Reply;
pub use run::run_program;
pub use status::Status;
pub use std_streams::{StdSink, StdSource};
