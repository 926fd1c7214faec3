//! Whole schema texts laid out anew, with their comments.
#![tactic(auto)]

pub mod laws;
pub mod layout_error;
pub mod texts;

pub use laws::{kept_schemas_stay, laid_schemas_stay, pieces_make_schemas};
pub use layout_error::LayoutError;
pub use texts::{layout, layout_kept};
