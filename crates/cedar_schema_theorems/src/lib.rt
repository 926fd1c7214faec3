//! The page of theorems: what is proved of schema texts, fragments and schemas, one sentence each. Each theorem is what
//! its function ensures, over definitions alone, and each function does nothing but cite the laws that it follows from;
//! one alone runs the program, of which it speaks. A text is the list of its bytes; a meaning is what a schema is
//! about: entity types and actions, each with all that is above it, and no common type.
#![tactic(auto)]

pub mod fragments;
pub mod orders;
pub mod runs;
pub mod texts;

pub use fragments::{
    a_fragment_has_a_fault_or_a_meaning, a_fragment_has_one_meaning,
    a_tree_is_translated_where_it_can_be, faults_are_told_alike, printed_fragments_say_the_same,
    texts_of_printable_fragments_say_them, what_is_said_decides,
};
pub use orders::{
    blanks_do_not_matter, divisions_do_not_matter, order_does_not_matter,
    rearranged_texts_mean_the_same, valid_texts_are_written, valid_together,
};
pub use runs::{
    a_made_text_is_valid, a_recovery_writes_what_its_input_means, a_run_has_one_plan,
    a_text_has_one_meaning, a_text_has_one_refusal, a_valid_text_is_planned,
    canonical_texts_stand_for_meanings, recovering_again_changes_nothing, refused_is_not_valid,
    what_is_recovered_from_json_means_the_same, what_is_recovered_means_the_same,
};
pub use texts::{
    a_text_has_one_error, a_text_has_one_syntax_fault, a_text_has_one_translation,
    a_text_has_one_tree, a_text_is_scanned, a_tree_or_an_error, kinds_are_a_schema_or_have_a_fault,
    texts_of_meanings_say_them, the_grammar_says_what_is_read,
};
