//! What may stand at a place of a schema text, for editors: the kinds of tokens that may come, and the names that may
//! be written there, as a call and as a run of a program.
#![tactic(auto)]

pub mod assistance;
pub mod laws;
mod lines;
pub mod run;
mod words;

pub use assistance::{Assistance, assist};
pub use laws::{assisted_or_refused, one_assistance, one_refusal};
pub use run::{AssistAt, reply_at, run_assist};
pub use schema_assist_places::laws::one_place;
pub use schema_assist_words::AssistError;
