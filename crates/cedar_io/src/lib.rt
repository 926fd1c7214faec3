//! Where bytes come from and where they go, and how a whole input is read and a whole text written.
#![tactic(auto)]

mod calls;
pub mod failed;
pub mod input;
pub mod memory_sink;
pub mod memory_source;
pub mod null_sink;
pub mod output;
pub mod sink;
pub mod source;
pub mod steady_source;

pub use failed::Failed;
pub use input::{MAX_INPUT, ReadEnd, read_input};
pub use memory_sink::MemorySink;
pub use memory_source::MemorySource;
pub use null_sink::NullSink;
pub use output::write_text;
pub use sink::Sink;
pub use source::Source;
pub use steady_source::SteadySource;
