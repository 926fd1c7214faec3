//! What no schema is put together of: an action that is misnamed, and an enumerated entity type with ancestors.
#![tactic(auto)]

pub mod parts;
