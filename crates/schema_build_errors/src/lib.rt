//! Why a fragment is no schema, or a schema cannot be printed: the faults of building, and what is said of them.
#![tactic(auto)]

pub mod captured;
pub mod cycle_errors;
pub mod declared_errors;
pub mod hierarchy_errors;
mod joining;
mod places;
pub mod recovery_error;
pub mod refusal;
pub mod schema_error;
pub mod shape_errors;
pub mod use_errors;

pub use captured::{CapturedItem, ReferenceCaptured};
pub use cycle_errors::{CycleInActionHierarchyError, CycleInCommonTypeReferencesError};
pub use declared_errors::{
    ActionEntityTypeDeclaredError, ActionShadowingError, TypeShadowingError,
};
pub use hierarchy_errors::{
    EnumEntityInHierarchyError, ExternalWithEnumAncestorError, InvalidActionTypeError,
};
pub use recovery_error::{RecoveryError, ToTextError};
pub use refusal::Refusal;
pub use schema_error::SchemaError;
pub use schema_json_errors::{JsonAdvice, JsonDeserializationError, JsonFault};
pub use schema_resolve_errors::{ActionNotDefinedError, TypeNotDefinedError};
pub use shape_errors::{ContextOrShape, ContextOrShapeNotRecordError};
pub use use_errors::{
    UndeclaredEntityTypesError, UnknownExtensionTypeError, UnsupportedFeature,
    UnsupportedFeatureError,
};
