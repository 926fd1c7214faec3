//! Which values show that a new schema does not admit all that an old one does.
#![tactic(auto)]

#[cfg(test)]
mod admitted;
#[cfg(test)]
mod choice_table;
#[cfg(test)]
mod choices;
