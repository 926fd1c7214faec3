//! What the deprecated JSON form of schemas says, as data. A name that reading does not check is a text.
#![tactic(auto)]

pub mod action_type;
pub mod entity_type;
pub mod fragment;
pub mod types;

pub use action_type::{ActionEntityUID, ActionType, ApplySpec};
pub use entity_type::{AttributesOrContext, EntityType};
pub use fragment::{NamespaceDefinition, SchemaFragment};
pub use types::{SchemaType, SchemaTypeVariant, TypeOfAttribute};
