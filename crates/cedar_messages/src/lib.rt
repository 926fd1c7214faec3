//! Messages in a row of bytes: each behind its length, which is four bytes, the highest first.
#![tactic(auto)]

pub mod laws;
pub mod messages;

pub use laws::one_list_of_messages;
pub use messages::{are_messages, first_message};
