//! What no contract says of the program's calls and of those of the builder: what they answer to whole inputs, and that the standard
//! streams pass bytes on.
#![tactic(auto)]

#[cfg(test)]
mod as_library;
#[cfg(test)]
mod builder;
#[cfg(test)]
mod fault_table;
#[cfg(test)]
mod hostile;
#[cfg(test)]
mod json_table;
#[cfg(test)]
mod recovery;
#[cfg(test)]
mod runs;
#[cfg(test)]
mod streams;
#[cfg(test)]
mod table;
#[cfg(test)]
mod told_table;
#[cfg(test)]
mod valid_table;
#[cfg(test)]
mod worked_table;
