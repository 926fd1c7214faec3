//! The grammar of Cedar schema texts on the kinds of tokens: what is a sentence, and what may come next.
#![tactic(auto)]

pub mod expected;
pub mod laws;
pub mod stack;
pub mod symbol;
pub mod token_kind;

pub use expected::{Fault, expected_after, fault_of, is_sentence, longest_viable};
pub use token_kind::{ALL_KINDS, HasKind, TokenKind};
