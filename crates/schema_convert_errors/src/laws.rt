ghost use Rattle.std.specs.Prelude.{◌≡◌, ◌↔◌, true};

use crate::error_list::{CedarSchemaParseErrors, ToJsonSchemaErrors, ToJsonSchemaFailure};
use crate::errors::{
    DuplicateContext, DuplicateDeclarations, DuplicateNamespace, DuplicatePrincipalOrResource,
    MissingOrEmpty, NoPrincipalOrResource, ReservedName, ReservedSchemaKeyword, ToJsonSchemaError,
    UnknownTypeName,
};
use crate::warnings::{SchemaWarning, ShadowsBuiltinWarning, ShadowsEntityWarning};
use schema_syntax_errors::laws::parse_error_lists_by_value;

/// Repeated declarations are equal exactly where they are the same in every field, places included.
pub fn duplicate_declarations_by_value(a: &DuplicateDeclarations, b: &DuplicateDeclarations)
    ensures { ⟦<DuplicateDeclarations as PartialEq>⟧.eq a.now b.now ≡ true ↔ a.now ≡ b.now }
{}

/// Second contexts are equal exactly where they are the same.
pub fn duplicate_contexts_by_value(a: &DuplicateContext, b: &DuplicateContext)
    ensures { ⟦<DuplicateContext as PartialEq>⟧.eq a.now b.now ≡ true ↔ a.now ≡ b.now }
{}

/// Second lists of principals or resources are equal exactly where they are the same.
pub fn duplicate_roles_by_value(a: &DuplicatePrincipalOrResource, b: &DuplicatePrincipalOrResource)
    ensures { ⟦<DuplicatePrincipalOrResource as PartialEq>⟧.eq a.now b.now ≡ true ↔ a.now ≡ b.now }
{}

/// Why a list of principals or resources is none is equal exactly where it is the same.
pub fn missing_or_empty_by_value(a: &MissingOrEmpty, b: &MissingOrEmpty)
    ensures { ⟦<MissingOrEmpty as PartialEq>⟧.eq a.now b.now ≡ true ↔ a.now ≡ b.now }
{}

/// Actions without principals or resources are equal exactly where they are the same.
pub fn absent_roles_by_value(a: &NoPrincipalOrResource, b: &NoPrincipalOrResource)
    ensures { ⟦<NoPrincipalOrResource as PartialEq>⟧.eq a.now b.now ≡ true ↔ a.now ≡ b.now }
{}

/// Repeated namespaces are equal exactly where they are the same.
pub fn duplicate_namespaces_by_value(a: &DuplicateNamespace, b: &DuplicateNamespace)
    ensures { ⟦<DuplicateNamespace as PartialEq>⟧.eq a.now b.now ≡ true ↔ a.now ≡ b.now }
{}

/// Types' names that mean nothing are equal exactly where they are the same.
pub fn unknown_type_names_by_value(a: &UnknownTypeName, b: &UnknownTypeName)
    ensures { ⟦<UnknownTypeName as PartialEq>⟧.eq a.now b.now ≡ true ↔ a.now ≡ b.now }
{}

/// Reserved names are equal exactly where they are the same.
pub fn reserved_names_by_value(a: &ReservedName, b: &ReservedName)
    ensures { ⟦<ReservedName as PartialEq>⟧.eq a.now b.now ≡ true ↔ a.now ≡ b.now }
{}

/// Common types that have a keyword for their name are equal exactly where they are the same.
pub fn reserved_keywords_by_value(a: &ReservedSchemaKeyword, b: &ReservedSchemaKeyword)
    ensures { ⟦<ReservedSchemaKeyword as PartialEq>⟧.eq a.now b.now ≡ true ↔ a.now ≡ b.now }
{}

/// Faults of any of these kinds are equal exactly where they are the same.
pub fn schema_faults_by_value(a: &ToJsonSchemaError, b: &ToJsonSchemaError)
    ensures { ⟦<ToJsonSchemaError as PartialEq>⟧.eq a.now b.now ≡ true ↔ a.now ≡ b.now }
{}

/// Lists of faults are equal exactly where they are the same.
pub fn fault_lists_by_value(a: &ToJsonSchemaErrors, b: &ToJsonSchemaErrors)
    ensures { ⟦<ToJsonSchemaErrors as PartialEq>⟧.eq a.now b.now ≡ true ↔ a.now ≡ b.now }
{}

/// Why a tree was not translated is equal exactly where it is the same.
pub fn failures_by_value(a: &ToJsonSchemaFailure, b: &ToJsonSchemaFailure)
    ensures { ⟦<ToJsonSchemaFailure as PartialEq>⟧.eq a.now b.now ≡ true ↔ a.now ≡ b.now }
{}

/// Why a text was not translated is equal exactly where it is the same.
pub fn text_failures_by_value(a: &CedarSchemaParseErrors, b: &CedarSchemaParseErrors)
    ensures { ⟦<CedarSchemaParseErrors as PartialEq>⟧.eq a.now b.now ≡ true ↔ a.now ≡ b.now }
{
    match a {
        CedarSchemaParseErrors::SyntaxError(x) => match b {
            CedarSchemaParseErrors::SyntaxError(y) => parse_error_lists_by_value(x, y),
            CedarSchemaParseErrors::JsonError(_) => {}
            CedarSchemaParseErrors::Memory => {}
        },
        CedarSchemaParseErrors::JsonError(x) => match b {
            CedarSchemaParseErrors::SyntaxError(_) => {}
            CedarSchemaParseErrors::JsonError(y) => fault_lists_by_value(x, y),
            CedarSchemaParseErrors::Memory => {}
        },
        CedarSchemaParseErrors::Memory => match b {
            CedarSchemaParseErrors::SyntaxError(_) => {}
            CedarSchemaParseErrors::JsonError(_) => {}
            CedarSchemaParseErrors::Memory => {}
        },
    }
}

/// Builtin names that are hidden are equal exactly where they are the same.
pub fn builtin_warnings_by_value(a: &ShadowsBuiltinWarning, b: &ShadowsBuiltinWarning)
    ensures { ⟦<ShadowsBuiltinWarning as PartialEq>⟧.eq a.now b.now ≡ true ↔ a.now ≡ b.now }
{}

/// Entity types that are hidden are equal exactly where they are the same.
pub fn entity_warnings_by_value(a: &ShadowsEntityWarning, b: &ShadowsEntityWarning)
    ensures { ⟦<ShadowsEntityWarning as PartialEq>⟧.eq a.now b.now ≡ true ↔ a.now ≡ b.now }
{}

/// Warnings of both kinds are equal exactly where they are the same.
pub fn warnings_by_value(a: &SchemaWarning, b: &SchemaWarning)
    ensures { ⟦<SchemaWarning as PartialEq>⟧.eq a.now b.now ≡ true ↔ a.now ≡ b.now }
{}
