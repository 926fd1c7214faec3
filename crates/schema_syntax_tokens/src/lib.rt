//! The tokens of Cedar schema texts, and what their strings stand for.
#![tactic(auto)]

pub mod blanks;
pub mod escapes;
pub mod laws;
pub mod ordered;
mod places;
pub mod quotes;
pub mod scanner;
mod strings;
pub mod token;
pub mod walks;
mod words;

pub use blanks::{line_len, past_blank, starts_comment};
pub use escapes::{Refusal, unescape};
pub use ordered::cmp_values;
pub use quotes::push_quoted;
pub use scanner::{Scanned, ShortScan, scan, scan_short, token_of};
pub use token::{ShortToken, Token, place_from, string_body, token_text, whole_place};
pub use walks::{check_escapes, next_piece, same_value};
