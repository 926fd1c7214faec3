//! The table in which a registry keeps its entries, over a database of `sqlite`.
#![tactic(auto)]

pub mod error;
mod rows;
mod schema;
pub mod table;

pub use error::TableError;
pub use table::TextTable;
