//! Where faults stand in a text, by lines and columns, and the reports that people and their tools read.
#![tactic(auto)]

pub mod escape;
mod excerpt;
mod first_char;
mod fronts;
pub mod github;
pub mod human;
pub mod json_lines;
pub mod lines;
mod marks;
pub mod place;
mod pushing;
pub mod report;
pub mod short;
pub mod token_helps;

pub use escape::{Escape, push_escaped};
pub use github::push_github;
pub use human::{Colour, push_human};
pub use json_lines::push_json;
pub use lines::Lines;
pub use place::{Place, Units};
pub use report::{Report, ReportPlace, report_of};
pub use short::push_short;
pub use token_helps::token_help;
