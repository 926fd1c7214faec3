//! The formatter: schema texts laid out anew with their comments, as calls and as a run of a program.
#![tactic(auto)]

pub mod run;

pub use run::{LayOut, run_layout};
pub use schema_layout_pieces::laws::{laid_pieces_are_read_back, pieces_of_texts};
pub use schema_layout_texts::{
    LayoutError, kept_schemas_stay, laid_schemas_stay, layout, layout_kept, pieces_make_schemas,
};
