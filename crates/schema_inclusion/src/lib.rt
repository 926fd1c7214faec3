//! The comparison of two schemas by what they admit, as calls and as a run of a program.
#![tactic(auto)]

pub mod run;

pub use run::{Include, run_inclusion, texts_reply};
pub use schema_inclusion_shown::schema_value_text;
pub use schema_inclusion_texts::{Inclusion, InclusionError, check_inclusion};
pub use schema_inclusion_values::{SchemaValue, Val};
