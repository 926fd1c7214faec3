ghost use Rattle.std.specs.Prelude.{◌≡◌};

/// How a run ended.
#[derive(Clone, Copy, PartialEq, Eq)]
pub enum Status {
    /// What the words ask for was written.
    Done,
    /// The input is refused.
    Refused,
    /// The words ask for no command.
    Usage,
    /// A read failed.
    ReadFault,
    /// A write failed.
    WriteFault,
    /// The input is not UTF-8.
    NotText,
    /// The input is longer than 16,777,216 bytes.
    TooLong,
    /// Out of memory, with nothing written.
    Memory,
}

impl Status {
    ghost use Rattle.cedar_runs.specs.Statuses.{code_of};

    /// The exit code: 0 to 7, in the order of the statuses.
    pub fn code(self) -> u8
        ensures { result ≡ code_of self }
    {
        self as u8
    }
}
