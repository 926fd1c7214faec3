//! Identifiers and names: how they are read, compared, qualified and written, and what stands beside them in a schema.
#![tactic(auto)]

pub mod annotations;
pub mod any_id;
pub mod conditional_name;
pub mod eid;
pub mod id;
pub mod internal_name;
pub mod laws;
pub mod name;
pub mod name_fault;
pub mod name_kind;
mod name_pieces;
mod name_reader;
pub mod name_text;
pub mod raw_name;
pub mod reference_type;
pub mod reserved;
pub mod unreserved_id;

pub use annotations::Annotations;
pub use any_id::AnyId;
pub use conditional_name::ConditionalName;
pub use eid::Eid;
pub use id::Id;
pub use internal_name::InternalName;
pub use laws::{annotations_are_equal_by_entries, eids_are_equal_by_bytes};
pub use name::Name;
pub use name_fault::NameFault;
pub use name_kind::NameKind;
pub use name_text::NameText;
pub use raw_name::RawName;
pub use reference_type::ReferenceType;
pub use reserved::{is_cedar, is_reserved};
pub use unreserved_id::UnreservedId;
