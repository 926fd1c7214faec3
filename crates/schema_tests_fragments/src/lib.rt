//! What no contract says of fragments: what texts and JSON texts are translated to, or the faults and warnings that they have, what names
//! resolve to and how fragments are printed, compared with what a second program says and with worked texts; what names are declared and
//! defined, what is told of each cause, and that calls succeed where memory is there.
#![tactic(auto)]

#[cfg(test)]
mod calls;
#[cfg(test)]
mod definitions;
#[cfg(test)]
mod errors;
#[cfg(test)]
mod fault_lines;
#[cfg(test)]
mod fault_table;
#[cfg(test)]
mod fault_texts;
#[cfg(test)]
mod fragment_lines;
#[cfg(test)]
mod json_keys;
#[cfg(test)]
mod json_old_shapes;
#[cfg(test)]
mod json_old_table;
#[cfg(test)]
mod json_shape_table;
#[cfg(test)]
mod json_shapes;
#[cfg(test)]
mod json_told;
#[cfg(test)]
mod json_told_table;
#[cfg(test)]
mod json_value_table;
#[cfg(test)]
mod json_values;
#[cfg(test)]
mod printable_table;
#[cfg(test)]
mod printable_texts;
#[cfg(test)]
mod printed_parts;
#[cfg(test)]
mod printed_table;
#[cfg(test)]
mod printed_texts;
#[cfg(test)]
mod resolved_parts;
#[cfg(test)]
mod resolved_table;
#[cfg(test)]
mod resolved_texts;
#[cfg(test)]
mod translated_table;
#[cfg(test)]
mod translated_texts;
