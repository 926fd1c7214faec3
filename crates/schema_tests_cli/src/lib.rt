//! Runs of `cedar-schema` over files, inputs and outputs in memory.
#![tactic(auto)]

#[cfg(test)]
mod run_table;
#[cfg(test)]
mod runs;
