//! Fragments of a schema as data, generic in how names are written: with comparisons that see no place, copies and
//! accessors.
#![tactic(auto)]

pub mod accessors;
pub mod action_type;
pub mod action_uid;
pub mod common_type;
pub mod entity_type;
pub mod extension;
pub mod fragment;
pub mod laws;
pub mod placeless;
pub mod reserved;
pub mod typed_name;
pub mod types;
pub mod walk;

pub use action_type::{ActionEntityUID, ActionType, ApplySpec};
pub use action_uid::action_name;
pub use common_type::{CommonType, CommonTypeId, is_keyword_name};
pub use entity_type::{AttributesOrContext, EntityType, EntityTypeKind, StandardEntityType};
pub use fragment::{Fragment, NamespaceDefinition};
pub use reserved::{ReservedCommonTypeBasenameError, ReservedNameError};
pub use typed_name::TypedName;
pub use types::{RecordType, Type, TypeOfAttribute, TypeVariant};
