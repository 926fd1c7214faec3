//! What is wrong with the words of the command line.
ghost use Rattle.std.specs.Prelude.{◌≡◌, IfOk};

use std::alloc::{AllocError, Global};

/// What is wrong with words.
#[derive(Drop)]
pub enum WordFault {
    /// There are none.
    NoCommand,
    /// The first is no command.
    NoSuchCommand(String),
    /// One that begins with a dash is no option of the command.
    NoSuchOption(String),
    /// No input is named.
    NoNames,
}
