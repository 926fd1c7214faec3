//! Laws of what meanings of fragments without a build fault admit, whether or not a name in them is captured.
#![tactic(auto)]

pub mod laws;
