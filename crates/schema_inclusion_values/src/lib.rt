//! The values that a meaning admits: entities, requests, and actions within others; and the first that one meaning
//! admits and another does not.
#![tactic(auto)]

pub mod laws;
pub mod schema_value;
pub mod val;

pub use schema_value::SchemaValue;
pub use val::Val;
