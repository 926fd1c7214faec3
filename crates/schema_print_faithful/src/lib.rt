//! The text of a fragment, where the text says the fragment. Each fragment in memory is orderly: its maps rise by their
//! keys, and its enums have a choice.
#![tactic(auto)]

pub mod faithful_texts;
pub mod orderly_fragments;
mod orderly_items;
mod orderly_types;

pub use faithful_texts::faithful_text;
pub use orderly_fragments::fragment_is_orderly;
