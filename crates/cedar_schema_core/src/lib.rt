//! What the program does, as calls: a schema recovered from its text or its JSON, and a run of the program over any
//! source and any two sinks.
#![tactic(auto)]

pub mod command;
pub mod json_texts;
pub mod laws;
mod output;
pub mod recover;
mod reply;
pub mod run;
pub mod tables;

pub use cedar_data::Diagnostic;
pub use cedar_io::{MAX_INPUT, ReadEnd, read_input, write_text};
pub use cedar_runs::{
    Call, Program, Reply, Status, StdSink, StdSource, call_of, deliver, run_program,
};
pub use cedar_schema_core_faults::{RecoverError, fault_text};
pub use command::Command;
pub use json_texts::{JsonForm, recover_json, to_json_text};
pub use laws::{
    canonical_texts_mean_the_same, canonical_texts_tell_meanings_apart, generated_texts_are_valid,
    one_json_reading, one_plan, one_refusal, one_text_meaning, one_translation,
    recovered_json_recovers_itself, recovered_texts_recover_themselves, refused_or_valid,
    texts_of_closed_meanings_mean_them, texts_of_json_mean_the_same, valid_texts_are_planned,
};
pub use recover::{Recovered, recover_schema};
pub use run::{reply_to, run_tool};
pub use schema_generate::{MAX_SIZE, generate_text};
pub use tables::{one_table, table_of_names, table_of_words};
