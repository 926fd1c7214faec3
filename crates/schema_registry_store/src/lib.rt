//! A registry of schemas in a file that outlives the process: one entry for each meaning, however it is written.
#![tactic(auto)]

pub mod error;
pub mod store;

pub use error::StoreError;
pub use schema_registry_table::TableError;
pub use store::RegistryStore;
