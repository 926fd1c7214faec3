//! What no contract says of plain data, of devices, of names and of tables of extensions; and of schema texts, their tokens, trees, faults and
//! messages, compared with what a second program says.
#![tactic(auto)]

#[cfg(test)]
mod data;
#[cfg(test)]
mod devices;
#[cfg(test)]
mod error_lines;
#[cfg(test)]
mod expected_table;
#[cfg(test)]
mod fault_table;
#[cfg(test)]
mod grammar;
#[cfg(test)]
mod identifiers;
#[cfg(test)]
mod lent;
#[cfg(test)]
mod letters;
#[cfg(test)]
mod message_table;
#[cfg(test)]
mod messages;
#[cfg(test)]
mod name_table;
#[cfg(test)]
mod names;
#[cfg(test)]
mod sentence_table;
#[cfg(test)]
mod sentences;
#[cfg(test)]
mod string_table;
#[cfg(test)]
mod strings;
#[cfg(test)]
mod texts;
#[cfg(test)]
mod token_table;
#[cfg(test)]
mod tokens;
#[cfg(test)]
mod tree_lines;
#[cfg(test)]
mod tree_table;
