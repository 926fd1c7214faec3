//! The command `format`: schema texts laid out, to the output or in place of what files hold.
#![tactic(auto)]

pub mod changes;
pub mod format;
pub mod formatting;
pub mod inputs;
pub mod laid;

pub use format::format_reply;
