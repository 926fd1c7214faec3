//! What the faults of translation say, advise and point to.
ghost use Rattle.std.specs.Prelude.{◌≡◌, ◌++◌, Some, IfOk};
ghost use Rattle.schema_syntax_errors.specs.FaultLabels.{unnamed_label};
ghost use Rattle.schema_convert_errors.specs.declared.errors.MissingOrEmpty.TheVariants.{Empty};
ghost use Rattle.schema_convert_errors.specs.ErrorTexts.{second_text, absent_text, empty_text, declared_twice_text};
ghost use Rattle.schema_convert_errors.specs.ErrorTexts.{second_context_text, second_targets_text};
ghost use Rattle.schema_convert_errors.specs.ErrorTexts.{no_targets_text, namespace_twice_text, unknown_name_text};
ghost use Rattle.schema_convert_errors.specs.ErrorTexts.{reserved_name_text};
ghost use Rattle.schema_convert_errors.specs.ErrorTexts.{keyword_text, translation_fault_text};
ghost use Rattle.schema_convert_errors.specs.ErrorPlaces.{second_context_help, second_targets_help, no_targets_help};
ghost use Rattle.schema_convert_errors.specs.ErrorPlaces.{unknown_name_help};
ghost use Rattle.schema_convert_errors.specs.ErrorPlaces.{reserved_name_help, keyword_help, missing_labels};
ghost use Rattle.schema_convert_errors.specs.ErrorPlaces.{translation_fault_help, translation_fault_labels};

use crate::errors::{
    DuplicateContext, DuplicateDeclarations, DuplicateNamespace, DuplicatePrincipalOrResource,
    MissingOrEmpty, NoPrincipalOrResource, ReservedName, ReservedSchemaKeyword, ToJsonSchemaError,
    UnknownTypeName,
};
use crate::labels::push_saying;
use cedar_data::{Diagnostic, Label, Loc, Severity, Text, around, message};
use schema_syntax_errors::labels::{bare_label, bare_labels};
use schema_syntax_tree::PR;
use std::alloc::{AllocError, Global};

/// What an action without principals or resources is told.
pub const NO_PR_HELP_MSG: &str =
    "Every action must define both `principal` and `resource` targets, and the `principal` and `resource` lists must not be `[]`.";

const SECOND_CONTEXT_HELP: &str =
    "Try either deleting one of the declarations, or merging into a single declaration";

const SECOND_PRINCIPAL_HELP: &str =
    "Actions may only have a single principal declaration, but a principal declaration may specify a list of entity types like `principal: [X, Y, Z]`";

const SECOND_RESOURCE_HELP: &str =
    "Actions may only have a single resource declaration, but a resource declaration may specify a list of entity types like `resource: [X, Y, Z]`";

const RESERVED_NAME_HELP: &str =
    "Names containing `__cedar` (for example: `__cedar::A`, `A::__cedar`, or `A::__cedar::B`) are reserved";

const KEYWORD_HELP: &str =
    "Keywords such as `entity`, `extension`, `set` and `record` cannot be used as common type names";

impl Diagnostic for DuplicateDeclarations {
    ghost text = { declared_twice_text };

    ghost labels = { λ e. unnamed_label e.loc1 ++ unnamed_label e.loc2 };

    fn text(&self, alloc: Global) -> Result<Text, AllocError> {
        around(alloc, "`", &self.decl, "` is declared twice")
    }

    fn help(&self, _alloc: Global, _source: &str) -> Result<Option<Text>, AllocError> {
        Ok(None)
    }

    fn labels(&self, alloc: Global) -> Result<Vec<Label>, AllocError> {
        bare_labels(alloc, self.loc1, self.loc2)
    }

    fn severity(&self) -> Severity {
        Severity::Error
    }
}

impl Diagnostic for DuplicateContext {
    ghost text = { second_context_text };

    ghost help = { λ _ _. Some second_context_help };

    ghost labels = { λ e. unnamed_label e.loc1 ++ unnamed_label e.loc2 };

    fn text(&self, alloc: Global) -> Result<Text, AllocError> {
        around(
            alloc,
            "duplicate context declaration in action `",
            &self.name,
            "`",
        )
    }

    fn help(&self, alloc: Global, _source: &str) -> Result<Option<Text>, AllocError> {
        Ok(Some(message(alloc, SECOND_CONTEXT_HELP)?))
    }

    fn labels(&self, alloc: Global) -> Result<Vec<Label>, AllocError> {
        bare_labels(alloc, self.loc1, self.loc2)
    }

    fn severity(&self) -> Severity {
        Severity::Error
    }
}

impl Diagnostic for DuplicatePrincipalOrResource {
    ghost text = { second_targets_text };

    ghost help = { λ e _. Some (second_targets_help e.kind) };

    ghost labels = { λ e. unnamed_label e.loc1 ++ unnamed_label e.loc2 };

    fn text(&self, alloc: Global) -> Result<Text, AllocError> {
        second_text(alloc, self.kind, &self.name)
    }

    fn help(&self, alloc: Global, _source: &str) -> Result<Option<Text>, AllocError> {
        match self.kind {
            PR::Principal => Ok(Some(message(alloc, SECOND_PRINCIPAL_HELP)?)),
            PR::Resource => Ok(Some(message(alloc, SECOND_RESOURCE_HELP)?)),
        }
    }

    fn labels(&self, alloc: Global) -> Result<Vec<Label>, AllocError> {
        bare_labels(alloc, self.loc1, self.loc2)
    }

    fn severity(&self) -> Severity {
        Severity::Error
    }
}

impl Diagnostic for NoPrincipalOrResource {
    ghost text = { no_targets_text };

    ghost help = { λ _ _. Some no_targets_help };

    ghost labels = { λ e. missing_labels e.missing_or_empty e.name_loc };

    fn text(&self, alloc: Global) -> Result<Text, AllocError> {
        match self.missing_or_empty {
            MissingOrEmpty::Missing => absent_text(alloc, self.kind, &self.name),
            MissingOrEmpty::Empty { .. } => empty_text(alloc, self.kind, &self.name),
        }
    }

    fn help(&self, alloc: Global, _source: &str) -> Result<Option<Text>, AllocError> {
        Ok(Some(message(alloc, NO_PR_HELP_MSG)?))
    }

    fn labels(&self, alloc: Global) -> Result<Vec<Label>, AllocError> {
        match self.missing_or_empty {
            MissingOrEmpty::Missing => bare_label(alloc, self.name_loc),
            MissingOrEmpty::Empty { loc } => empty_labels(alloc, self.name_loc, loc),
        }
    }

    fn severity(&self) -> Severity {
        Severity::Error
    }
}

impl Diagnostic for DuplicateNamespace {
    ghost text = { namespace_twice_text };

    ghost labels = { λ e. unnamed_label e.loc1 ++ unnamed_label e.loc2 };

    fn text(&self, alloc: Global) -> Result<Text, AllocError> {
        around(alloc, "duplicate namespace id: `", &self.namespace_id, "`")
    }

    fn help(&self, _alloc: Global, _source: &str) -> Result<Option<Text>, AllocError> {
        Ok(None)
    }

    fn labels(&self, alloc: Global) -> Result<Vec<Label>, AllocError> {
        bare_labels(alloc, self.loc1, self.loc2)
    }

    fn severity(&self) -> Severity {
        Severity::Error
    }
}

impl Diagnostic for UnknownTypeName {
    ghost text = { unknown_name_text };

    ghost help = { λ e _. Some (unknown_name_help e.name) };

    ghost labels = { λ e. unnamed_label e.loc };

    fn text(&self, alloc: Global) -> Result<Text, AllocError> {
        around(alloc, "unknown type name: `", &self.name, "`")
    }

    /// What the name may be meant to be.
    fn help(&self, alloc: Global, _source: &str) -> Result<Option<Text>, AllocError> {
        let before = "Did you mean to define `";
        let after = "` as an entity type or common type?";
        Ok(Some(around(alloc, before, &self.name, after)?))
    }

    fn labels(&self, alloc: Global) -> Result<Vec<Label>, AllocError> {
        bare_label(alloc, self.loc)
    }

    fn severity(&self) -> Severity {
        Severity::Error
    }
}

impl Diagnostic for ReservedName {
    ghost text = { reserved_name_text };

    ghost help = { λ _ _. Some reserved_name_help };

    ghost labels = { λ e. unnamed_label e.loc };

    fn text(&self, alloc: Global) -> Result<Text, AllocError> {
        message(alloc, "use of the reserved `__cedar` namespace")
    }

    fn help(&self, alloc: Global, _source: &str) -> Result<Option<Text>, AllocError> {
        Ok(Some(message(alloc, RESERVED_NAME_HELP)?))
    }

    fn labels(&self, alloc: Global) -> Result<Vec<Label>, AllocError> {
        bare_label(alloc, self.loc)
    }

    fn severity(&self) -> Severity {
        Severity::Error
    }
}

impl Diagnostic for ReservedSchemaKeyword {
    ghost text = { keyword_text };

    ghost help = { λ _ _. Some keyword_help };

    ghost labels = { λ e. unnamed_label e.loc };

    fn text(&self, alloc: Global) -> Result<Text, AllocError> {
        around(
            alloc,
            "this uses a reserved schema keyword: `",
            &self.keyword,
            "`",
        )
    }

    fn help(&self, alloc: Global, _source: &str) -> Result<Option<Text>, AllocError> {
        Ok(Some(message(alloc, KEYWORD_HELP)?))
    }

    fn labels(&self, alloc: Global) -> Result<Vec<Label>, AllocError> {
        bare_label(alloc, self.loc)
    }

    fn severity(&self) -> Severity {
        Severity::Error
    }
}

// What is said of a second list of principals or of resources.
fn second_text(alloc: Global, kind: PR, action: &Text) -> Result<Text, AllocError>
    ensures { IfOk result (λ text. text ≡ second_text kind action.now) }
{
    match kind {
        PR::Principal => around(
            alloc,
            "duplicate `principal` declaration in action `",
            action,
            "`",
        ),
        PR::Resource => around(
            alloc,
            "duplicate `resource` declaration in action `",
            action,
            "`",
        ),
    }
}

// What is said of an action whose list of principals or of resources is not there.
fn absent_text(alloc: Global, kind: PR, action: &Text) -> Result<Text, AllocError>
    ensures { IfOk result (λ text. text ≡ absent_text kind action.now) }
{
    match kind {
        PR::Principal => around(alloc, "missing `principal` declaration for `", action, "`"),
        PR::Resource => around(alloc, "missing `resource` declaration for `", action, "`"),
    }
}

// What is said of an action whose list of principals or of resources is empty.
fn empty_text(alloc: Global, kind: PR, action: &Text) -> Result<Text, AllocError>
    ensures { IfOk result (λ text. text ≡ empty_text kind action.now) }
{
    match kind {
        PR::Principal => around(
            alloc,
            "for action `",
            action,
            "`, `principal` is `[]`, which is invalid",
        ),
        PR::Resource => around(
            alloc,
            "for action `",
            action,
            "`, `resource` is `[]`, which is invalid",
        ),
    }
}

// The places of an action's name and of its empty list.
fn empty_labels(
    alloc: Global,
    name: Option<Loc>,
    list: Option<Loc>,
) -> Result<Vec<Label>, AllocError>
    ensures { IfOk result (λ labels. labels.items ≡ missing_labels (Empty list) name) }
{
    let mut labels = Vec::new(alloc);
    push_saying(alloc, &mut labels, "for this action", name)?;
    push_saying(alloc, &mut labels, "must not be `[]`", list)?;
    Ok(labels)
}

impl Diagnostic for ToJsonSchemaError {
    ghost text = { translation_fault_text };

    ghost help = { λ e _. translation_fault_help e };

    ghost labels = { translation_fault_labels };

    fn text(&self, alloc: Global) -> Result<Text, AllocError> {
        match self {
            ToJsonSchemaError::DuplicateDeclarations(fault) => fault.text(alloc),
            ToJsonSchemaError::DuplicateContext(fault) => fault.text(alloc),
            ToJsonSchemaError::DuplicatePrincipalOrResource(fault) => fault.text(alloc),
            ToJsonSchemaError::NoPrincipalOrResource(fault) => fault.text(alloc),
            ToJsonSchemaError::DuplicateNamespaces(fault) => fault.text(alloc),
            ToJsonSchemaError::UnknownTypeName(fault) => fault.text(alloc),
            ToJsonSchemaError::ReservedName(fault) => fault.text(alloc),
            ToJsonSchemaError::ReservedSchemaKeyword(fault) => fault.text(alloc),
        }
    }

    fn help(&self, alloc: Global, source: &str) -> Result<Option<Text>, AllocError> {
        match self {
            ToJsonSchemaError::DuplicateDeclarations(fault) => fault.help(alloc, source),
            ToJsonSchemaError::DuplicateContext(fault) => fault.help(alloc, source),
            ToJsonSchemaError::DuplicatePrincipalOrResource(fault) => fault.help(alloc, source),
            ToJsonSchemaError::NoPrincipalOrResource(fault) => fault.help(alloc, source),
            ToJsonSchemaError::DuplicateNamespaces(fault) => fault.help(alloc, source),
            ToJsonSchemaError::UnknownTypeName(fault) => fault.help(alloc, source),
            ToJsonSchemaError::ReservedName(fault) => fault.help(alloc, source),
            ToJsonSchemaError::ReservedSchemaKeyword(fault) => fault.help(alloc, source),
        }
    }

    fn labels(&self, alloc: Global) -> Result<Vec<Label>, AllocError> {
        match self {
            ToJsonSchemaError::DuplicateDeclarations(fault) => fault.labels(alloc),
            ToJsonSchemaError::DuplicateContext(fault) => fault.labels(alloc),
            ToJsonSchemaError::DuplicatePrincipalOrResource(fault) => fault.labels(alloc),
            ToJsonSchemaError::NoPrincipalOrResource(fault) => fault.labels(alloc),
            ToJsonSchemaError::DuplicateNamespaces(fault) => fault.labels(alloc),
            ToJsonSchemaError::UnknownTypeName(fault) => fault.labels(alloc),
            ToJsonSchemaError::ReservedName(fault) => fault.labels(alloc),
            ToJsonSchemaError::ReservedSchemaKeyword(fault) => fault.labels(alloc),
        }
    }

    fn severity(&self) -> Severity {
        Severity::Error
    }
}
