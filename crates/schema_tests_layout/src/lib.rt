//! Schema texts laid out anew, compared with what a second program makes of them.
#![tactic(auto)]

#[cfg(test)]
mod layout_table;
#[cfg(test)]
mod layouts;
