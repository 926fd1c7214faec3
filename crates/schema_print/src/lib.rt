//! Fragments as Cedar schemas: any fragment's text, and which have none.
#![tactic(auto)]

mod bodies;
pub mod cedar_text;
mod either_way;
pub mod fragments;
mod items;
pub mod laws;
mod lists;
mod parts_told;
pub mod printable;
mod printable_items;
pub mod to_cedar_schema;
mod unprintable;

pub use cedar_data::Diagnostic;
pub use cedar_text::CedarText;
pub use fragments::print_fragment;
pub use laws::fragments_are_laid_out;
pub use printable::is_printable;
pub use schema_print_errors::{
    NameCollisionsError, ToCedarSchemaSyntaxError, UnconvertibleEntityTypeShapeError,
};
pub use schema_print_text::NUM_INDENTATION_SPACES;
pub use to_cedar_schema::{ToCedarSchema, json_schema_to_cedar_schema_str};
