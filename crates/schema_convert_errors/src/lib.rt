//! What keeps a schema's tree from being a fragment, and what a tree is warned of.
#![tactic(auto)]

pub mod error_list;
mod error_texts;
pub mod errors;
mod labels;
pub mod laws;
pub mod warnings;

pub use error_list::{CedarSchemaParseErrors, ToJsonSchemaErrors, ToJsonSchemaFailure};
pub use error_texts::NO_PR_HELP_MSG;
pub use errors::{
    DuplicateContext, DuplicateDeclarations, DuplicateNamespace, DuplicatePrincipalOrResource,
    MissingOrEmpty, NoPrincipalOrResource, ReservedName, ReservedSchemaKeyword, ToJsonSchemaError,
    UnknownTypeName,
};
pub use warnings::{SchemaWarning, ShadowsBuiltinWarning, ShadowsEntityWarning};
