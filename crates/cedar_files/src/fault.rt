use thiserror::Error;

/// Why a call on files failed.
#[derive(Clone, Copy, Debug, PartialEq, Eq, Error)]
pub enum FileFault {
    /// No file has the path.
    #[error("there is no such file")]
    Missing,
    /// The system does not allow it.
    #[error("permission denied")]
    Denied,
    /// The file is longer than an input may be.
    #[error("the file is longer than 16777216 bytes")]
    TooLong,
    /// The system failed, or ended in the middle.
    #[error("the system failed")]
    System,
    /// Out of memory.
    #[error("out of memory")]
    Memory,
}
