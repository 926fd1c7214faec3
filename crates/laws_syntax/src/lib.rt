//! Laws of schema texts: each is scanned and has a syntax fault or none, it has at most one tree or one error, and the
//! tokens of the sites of a syntax are the names and strings that the grammar reads.
#![tactic(auto)]

pub mod scanning;
pub mod site_tokens;
pub mod trees;
