//! What the declarations and namespaces of a schema's tree become in a fragment.
#![tactic(auto)]

mod actions;
mod entities;
pub mod entries;
pub mod namespaces;
mod room;

pub use entries::map_of;
pub use namespaces::{
    Entries, declared_key, definition_from, fragment_from, fragment_of, push_declared,
};
