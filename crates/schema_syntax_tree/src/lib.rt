//! The tree of a Cedar schema text: what each declaration says, with its places. Its words and strings are slices of
//! the text.
#![tactic(auto)]

pub mod action_decl;
pub mod annotated;
pub mod app_decl;
pub mod decl;
pub mod declaration;
pub mod either;
pub mod entity_decl;
pub mod laws;
pub mod namespace;
pub mod path;
pub mod pr;
pub mod primitive_type;
pub mod qual_name;
pub mod src_annotations;
pub mod src_id;
pub mod src_str;
pub mod src_word;
pub mod type_decl;
pub mod types;
mod word_tests;

pub use action_decl::{ActionDecl, DefinedActionDecl, ExternalActionDecl};
pub use annotated::Annotated;
pub use app_decl::{AppDecl, PRAppDecl};
pub use decl::Decl;
pub use declaration::Declaration;
pub use either::Either;
pub use entity_decl::{EntityDecl, EnumEntityDecl, ExternalEntityDecl, StandardEntityDecl};
pub use laws::{annotated_items_are_equal_by_parts, annotated_items_are_lawful, paths_go_by_ids};
pub use namespace::{Namespace, Schema};
pub use path::{Path, PathIntoIter, PathIter};
pub use pr::PR;
pub use primitive_type::{BUILTIN_TYPES, PrimitiveType};
pub use qual_name::QualName;
pub use src_annotations::{SrcAnnotation, SrcAnnotations};
pub use src_id::{SrcId, compared_as_ids};
pub use src_str::{SrcStr, compared_as_texts};
pub use src_word::{SrcWord, compared_as_any_ids};
pub use type_decl::TypeDecl;
pub use types::{AttrDecl, Type};
