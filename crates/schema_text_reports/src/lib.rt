//! What is reported of a schema text: its warnings, or the faults that keep it from being a schema.
#![tactic(auto)]

pub mod faults;
pub mod reply;
pub mod reports;

pub use faults::push_fault_reports;
pub use reply::{reply_of_reports, reports_reply};
pub use reports::text_reports;
