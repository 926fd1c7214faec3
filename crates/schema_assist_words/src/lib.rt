//! What stands before a place of a schema text: the word that is being written there, the tokens in front of it, what
//! may stand behind them, and the namespace around the place.
#![tactic(auto)]

pub mod head;
pub mod laws;
pub mod namespaces;
pub mod text_before;

pub use namespaces::{name_of_words, namespace_around};
pub use text_before::{AssistError, TextBefore, before};
