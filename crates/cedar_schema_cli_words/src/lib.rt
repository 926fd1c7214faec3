//! The words of the command line of `cedar-schema`: what they ask for, or what is wrong with them.
#![tactic(auto)]

pub mod asked;
pub mod behind;
pub mod fault;
pub mod options;
pub mod reading;

pub use asked::{Asked, Command, Form, Mode, Options};
pub use fault::WordFault;
pub use reading::{Words, read_words};
