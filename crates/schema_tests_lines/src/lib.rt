//! Lines of tables: an answer and, behind `|`, a text. What is found is compared with the answer piece by piece, without memory. Answers
//! of calls that take memory, and copies.
#![tactic(auto)]

pub mod answers;
pub mod line;
pub mod wanted;

pub use answers::{copies, says, text};
pub use line::{answer_and_text, with_line_ends};
pub use wanted::Wanted;
