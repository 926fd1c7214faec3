//! Laws of building: a fragment has a fault or a meaning, what it means is closed, what says a closed meaning means it,
//! the order of declarations does not matter, and texts made by rule are valid.
#![tactic(auto)]

pub mod closed_meanings;
pub mod existing_meanings;
pub mod generated_texts;
pub mod rearranged_texts;
pub mod said_meanings;
