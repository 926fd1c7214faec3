//! What may stand at places of schema texts, compared with what a second program finds, and an editor that asks for it.
#![tactic(auto)]

#[cfg(test)]
mod assist_table;
#[cfg(test)]
mod assist_tests;
pub mod editor;
