//! Fragments read from the deprecated JSON form of schemas.
#![tactic(auto)]

pub mod read;

pub use read::{FragmentDeprecated, from_deprecated_json_str, from_deprecated_json_value};
