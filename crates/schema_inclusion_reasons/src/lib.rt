//! Why a meaning does not admit a value: the reasons, and that there is one exactly where it does not.
#![tactic(auto)]

pub mod laws;
