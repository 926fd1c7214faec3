//! The proved calls for C: each takes bytes, fills an answer, and gives a status.
#![tactic(auto)]

pub mod answer;
pub mod calls;
pub mod replies;
pub mod two_texts;

pub use answer::{Answer, answer_of};
pub use calls::{
    MEMORY, TOO_DEEP, Word, cedar_schema_check, cedar_schema_complete, cedar_schema_format,
    cedar_schema_from_deprecated, cedar_schema_from_json, cedar_schema_include,
    cedar_schema_recover, cedar_schema_report, cedar_schema_run, cedar_schema_same,
    cedar_schema_to_json, cedar_schema_version,
};
pub use cedar_nesting::{DEEPEST, is_too_deep};
pub use replies::reply_of_words;
pub use two_texts::{AdmitsAll, AreSame, TwoTexts, reply_of_two};
