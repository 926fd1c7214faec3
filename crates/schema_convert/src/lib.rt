//! The fragment that a schema's tree stands for, with what keeps it from being one and what it should not do.
#![tactic(auto)]

pub mod convert;
pub mod laws;

pub use cedar_data::Diagnostic;
pub use convert::{cedar_schema_to_json_schema, parse_cedar_schema_fragment};
pub use laws::{
    first_openings_have_values, lawful_trees, names_are_own, plain_trees, repeats_are_first,
    warnings_are_of,
};
pub use schema_convert_errors::{
    CedarSchemaParseErrors, DuplicateContext, DuplicateDeclarations, DuplicateNamespace,
    DuplicatePrincipalOrResource, MissingOrEmpty, NO_PR_HELP_MSG, NoPrincipalOrResource,
    ReservedName, ReservedSchemaKeyword, SchemaWarning, ShadowsBuiltinWarning,
    ShadowsEntityWarning, ToJsonSchemaError, ToJsonSchemaErrors, ToJsonSchemaFailure,
    UnknownTypeName,
};
pub use schema_convert_types::{
    IntoVariant, cedar_type_to_json_type, path_to_internal_name, path_to_raw_name,
};
