//! Fragments made of the data of the deprecated JSON form.
#![tactic(auto)]

pub mod convert;
pub mod fragments;
mod items;
mod types;

pub use fragments::convert_fragment;
