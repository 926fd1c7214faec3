//! Reports on texts, compared with what a second program makes of them, and advice.
#![tactic(auto)]

#[cfg(test)]
mod advice;
#[cfg(test)]
mod forms;
#[cfg(test)]
mod logs;
#[cfg(test)]
mod report_table;
