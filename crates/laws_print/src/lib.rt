//! Laws of printing: the text of a printable fragment reads back as the fragment in the form that its text has, and
//! both resolve alike.
#![tactic(auto)]

pub mod printable_fragments;
pub mod printed_fragments;
pub mod resolution;
