//! Data that contracts see plainly: texts as lists of characters, and lists, maps and boxes as what they hold; and the
//! words and messages that are made of texts.
#![tactic(auto)]

pub mod boxed;
pub mod byte_by_byte;
pub mod clone_in;
pub mod diagnostic;
pub mod label;
pub mod laws;
pub mod list;
pub mod loc;
pub mod map;
pub mod messages;
pub mod node;
pub mod non_empty;
pub mod rows;
pub mod set;
pub mod severity;
pub mod shared;
pub mod shared_map;
pub mod text;
pub mod words;

pub use boxed::Boxed;
pub use byte_by_byte::{compare_bytes, same_bytes};
pub use clone_in::CloneIn;
pub use diagnostic::Diagnostic;
pub use label::Label;
pub use laws::{lawful, nodes_are_equal_by_value};
pub use list::List;
pub use loc::Loc;
pub use map::Map;
pub use messages::{around, message, push_both};
pub use node::Node;
pub use non_empty::{NonEmpty, NonEmptyIntoIter, NonEmptyIter};
pub use rows::{and_list, by_number, comma_list, separator};
pub use set::Set;
pub use severity::Severity;
pub use shared::Shared;
pub use shared_map::SharedMap;
pub use text::Text;
pub use words::{is_word, is_word_part, is_word_start, word_len};
