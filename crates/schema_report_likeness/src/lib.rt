//! Names that are much like one that is not known.
#![tactic(auto)]

pub mod likeness;

pub use likeness::did_you_mean;
