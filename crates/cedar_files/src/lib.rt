//! Files by their paths: of the system, or in memory for tests.
#![tactic(auto)]

pub mod fault;
pub mod files;
pub mod memory_files;
pub mod replacing;
pub mod system_files;

pub use fault::FileFault;
pub use files::Files;
pub use memory_files::MemoryFiles;
pub use replacing::replace;
pub use system_files::SystemFiles;
