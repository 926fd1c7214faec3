//! Laws of JSON texts: what a value or a text says in the current form and in the deprecated one is one, and so is the
//! cause of its refusal; and what is written of a sayable fragment reads back.
#![tactic(auto)]

pub mod current_form;
pub mod deprecated_form;
pub mod written_values;
