//! What the names of a fragment mean: names qualified by the namespace that they stand in, and resolved to what is
//! defined.
#![tactic(auto)]

pub mod designate;
mod designator;
pub mod fully_qualify;
pub mod laws;
pub mod qualify;
mod rename_fragments;
mod rename_items;
mod rename_namespaces;
mod rename_types;
mod renamed;
mod renamer;
pub mod resolve_fragment;
mod resolver;
mod scope;
mod stop;
mod target_names;

pub use cedar_data::Diagnostic;
pub use designate::Designate;
pub use fully_qualify::FullyQualify;
pub use qualify::Qualify;
pub use resolve_fragment::ResolveFragment;
pub use schema_resolve_definitions::single_fragment;
pub use schema_resolve_errors::{ActionNotDefinedError, ResolveError, TypeNotDefinedError};
pub use schema_resolve_targets::{UndefinedReferences, gather_undefined, gather_undefined_alone};
