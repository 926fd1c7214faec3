//! A value of a type of a built schema, and one that an old type has and a new type has not.
#![tactic(auto)]

pub mod ids;
pub mod kinds;
pub mod lost;
pub mod names;
mod seek;
pub mod some;

pub use ids::{Ids, TypeIds};
pub use lost::{lost_record, lost_value};
pub use names::{same_name, same_text};
pub use some::{some_entries, some_value};
