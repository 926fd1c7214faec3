//! Runs of completion, the formatter and the registry over devices in memory, and the registry as calls.
#![tactic(auto)]

#[cfg(test)]
mod assist_table;
#[cfg(test)]
mod layout_table;
#[cfg(test)]
mod registry_calls;
#[cfg(test)]
mod registry_table;
#[cfg(test)]
mod runs;
