ghost use Rattle.std.specs.Prelude.{◌≡◌};
ghost use Rattle.schema_build_errors.specs.SchemaErrorTexts.{schema_error_text, schema_error_help, schema_error_labels};

use crate::cycle_errors::{CycleInActionHierarchyError, CycleInCommonTypeReferencesError};
use crate::declared_errors::{
    ActionEntityTypeDeclaredError, ActionShadowingError, TypeShadowingError,
};
use crate::hierarchy_errors::{
    EnumEntityInHierarchyError, ExternalWithEnumAncestorError, InvalidActionTypeError,
};
use crate::shape_errors::ContextOrShapeNotRecordError;
use crate::use_errors::{
    UndeclaredEntityTypesError, UnknownExtensionTypeError, UnsupportedFeatureError,
};
use cedar_data::{CloneIn, Diagnostic, Label, Severity, Text, message};
use schema_json_errors::JsonDeserializationError;
use schema_resolve_errors::{ActionNotDefinedError, TypeNotDefinedError};
use std::alloc::{AllocError, AllocFailed, Global};

/// Why a JSON text or a fragment is no schema: the first fault that it has, in the order of the variants; or out of
/// memory.
#[derive(Drop)]
pub enum SchemaError {
    /// A JSON text or value is no fragment.
    JsonDeserialization(JsonDeserializationError),
    /// An entity type is declared with the name `Action`.
    ActionEntityTypeDeclared(ActionEntityTypeDeclaredError),
    /// A type of a named namespace hides one of the empty namespace.
    TypeShadowing(TypeShadowingError),
    /// An action of a named namespace hides one of the empty namespace.
    ActionShadowing(ActionShadowingError),
    /// An extension type is not in the table.
    UnknownExtensionType(UnknownExtensionTypeError),
    /// The fragment has a part that a schema may not have.
    UnsupportedFeature(UnsupportedFeatureError),
    /// References to types mean nothing.
    TypeNotDefined(TypeNotDefinedError),
    /// References to actions mean nothing.
    ActionNotDefined(ActionNotDefinedError),
    /// Parents, principals or resources are no declared entity types.
    UndeclaredEntityTypes(UndeclaredEntityTypesError),
    /// A common type reaches itself.
    CycleInCommonTypeReferences(CycleInCommonTypeReferencesError),
    /// A shape or a context is no record.
    ContextOrShapeNotRecord(ContextOrShapeNotRecordError),
    /// An action reaches itself.
    CycleInActionHierarchy(CycleInActionHierarchyError),
    /// An external entity type has an enumerated ancestor.
    ExternalWithEnumAncestor(ExternalWithEnumAncestorError),
    /// An action has a type with another basename than `Action`.
    InvalidActionType(InvalidActionTypeError),
    /// An enumerated entity type has an ancestor.
    EnumEntityInHierarchy(EnumEntityInHierarchyError),
    /// There is not enough memory.
    Memory,
}

impl Diagnostic for SchemaError {
    ghost text = { schema_error_text };

    ghost help = { λ e _. schema_error_help e };

    ghost labels = { schema_error_labels };

    fn text(&self, alloc: Global) -> Result<Text, AllocError> {
        match self {
            SchemaError::JsonDeserialization(error) => error.text(alloc),
            SchemaError::ActionEntityTypeDeclared(error) => error.text(alloc),
            SchemaError::TypeShadowing(error) => error.text(alloc),
            SchemaError::ActionShadowing(error) => error.text(alloc),
            SchemaError::UnknownExtensionType(error) => error.text(alloc),
            SchemaError::UnsupportedFeature(error) => error.text(alloc),
            SchemaError::TypeNotDefined(error) => error.text(alloc),
            SchemaError::ActionNotDefined(error) => error.text(alloc),
            SchemaError::UndeclaredEntityTypes(error) => error.text(alloc),
            SchemaError::CycleInCommonTypeReferences(error) => error.text(alloc),
            SchemaError::ContextOrShapeNotRecord(error) => error.text(alloc),
            SchemaError::CycleInActionHierarchy(error) => error.text(alloc),
            SchemaError::ExternalWithEnumAncestor(error) => error.text(alloc),
            SchemaError::InvalidActionType(error) => error.text(alloc),
            SchemaError::EnumEntityInHierarchy(error) => error.text(alloc),
            SchemaError::Memory => message(alloc, "out of memory"),
        }
    }

    fn help(&self, alloc: Global, source: &str) -> Result<Option<Text>, AllocError> {
        match self {
            SchemaError::JsonDeserialization(error) => error.help(alloc, source),
            SchemaError::ActionEntityTypeDeclared(error) => error.help(alloc, source),
            SchemaError::TypeShadowing(error) => error.help(alloc, source),
            SchemaError::ActionShadowing(error) => error.help(alloc, source),
            SchemaError::UnknownExtensionType(error) => error.help(alloc, source),
            SchemaError::UnsupportedFeature(error) => error.help(alloc, source),
            SchemaError::TypeNotDefined(error) => error.help(alloc, source),
            SchemaError::ActionNotDefined(error) => error.help(alloc, source),
            SchemaError::UndeclaredEntityTypes(error) => error.help(alloc, source),
            SchemaError::CycleInCommonTypeReferences(error) => error.help(alloc, source),
            SchemaError::ContextOrShapeNotRecord(error) => error.help(alloc, source),
            SchemaError::CycleInActionHierarchy(error) => error.help(alloc, source),
            SchemaError::ExternalWithEnumAncestor(error) => error.help(alloc, source),
            SchemaError::InvalidActionType(error) => error.help(alloc, source),
            SchemaError::EnumEntityInHierarchy(error) => error.help(alloc, source),
            SchemaError::Memory => Ok(None),
        }
    }

    fn labels(&self, alloc: Global) -> Result<Vec<Label>, AllocError> {
        match self {
            SchemaError::JsonDeserialization(error) => error.labels(alloc),
            SchemaError::ActionEntityTypeDeclared(error) => error.labels(alloc),
            SchemaError::TypeShadowing(error) => error.labels(alloc),
            SchemaError::ActionShadowing(error) => error.labels(alloc),
            SchemaError::UnknownExtensionType(error) => error.labels(alloc),
            SchemaError::UnsupportedFeature(error) => error.labels(alloc),
            SchemaError::TypeNotDefined(error) => error.labels(alloc),
            SchemaError::ActionNotDefined(error) => error.labels(alloc),
            SchemaError::UndeclaredEntityTypes(error) => error.labels(alloc),
            SchemaError::CycleInCommonTypeReferences(error) => error.labels(alloc),
            SchemaError::ContextOrShapeNotRecord(error) => error.labels(alloc),
            SchemaError::CycleInActionHierarchy(error) => error.labels(alloc),
            SchemaError::ExternalWithEnumAncestor(error) => error.labels(alloc),
            SchemaError::InvalidActionType(error) => error.labels(alloc),
            SchemaError::EnumEntityInHierarchy(error) => error.labels(alloc),
            SchemaError::Memory => Ok(Vec::new(alloc)),
        }
    }

    fn severity(&self) -> Severity {
        Severity::Error
    }
}

impl From<AllocError> for SchemaError {
    ghost use Rattle.std.specs.Prelude.{◌≡◌};
    ghost use Rattle.schema_build_errors.specs.declared.schema_error.SchemaError.TheVariants.{Memory};

    ghost from_gives = { λ _ e. e ≡ Memory };

    fn from(_e: AllocError) -> SchemaError {
        SchemaError::Memory
    }
}

impl<T: Drop> From<AllocFailed<T>> for SchemaError {
    ghost use Rattle.std.specs.Prelude.{◌≡◌};
    ghost use Rattle.schema_build_errors.specs.declared.schema_error.SchemaError.TheVariants.{Memory};

    ghost from_gives = { λ _ e. e ≡ Memory };

    fn from(_e: AllocFailed<T>) -> SchemaError {
        SchemaError::Memory
    }
}

impl CloneIn for SchemaError {
    fn clone_in(&self, alloc: Global) -> Result<Self, AllocError> {
        match self {
            SchemaError::JsonDeserialization(e) => Ok(SchemaError::JsonDeserialization(e.clone_in(
                alloc,
            )?)),
            SchemaError::ActionEntityTypeDeclared(e) => Ok(SchemaError::ActionEntityTypeDeclared(
                e.clone_in(alloc)?,
            )),
            SchemaError::TypeShadowing(e) => Ok(SchemaError::TypeShadowing(e.clone_in(alloc)?)),
            SchemaError::ActionShadowing(e) => Ok(SchemaError::ActionShadowing(e.clone_in(alloc)?)),
            SchemaError::UnknownExtensionType(e) => Ok(SchemaError::UnknownExtensionType(e.clone_in(
                alloc,
            )?)),
            SchemaError::UnsupportedFeature(e) => Ok(SchemaError::UnsupportedFeature(e.clone_in(
                alloc,
            )?)),
            SchemaError::TypeNotDefined(e) => Ok(SchemaError::TypeNotDefined(e.clone_in(alloc)?)),
            SchemaError::ActionNotDefined(e) => Ok(SchemaError::ActionNotDefined(e.clone_in(
                alloc,
            )?)),
            SchemaError::UndeclaredEntityTypes(e) => Ok(SchemaError::UndeclaredEntityTypes(
                e.clone_in(alloc)?,
            )),
            SchemaError::CycleInCommonTypeReferences(e) => Ok(
                SchemaError::CycleInCommonTypeReferences(e.clone_in(alloc)?),
            ),
            SchemaError::ContextOrShapeNotRecord(e) => Ok(SchemaError::ContextOrShapeNotRecord(
                e.clone_in(alloc)?,
            )),
            SchemaError::CycleInActionHierarchy(e) => Ok(SchemaError::CycleInActionHierarchy(
                e.clone_in(alloc)?,
            )),
            SchemaError::ExternalWithEnumAncestor(e) => Ok(SchemaError::ExternalWithEnumAncestor(
                e.clone_in(alloc)?,
            )),
            SchemaError::InvalidActionType(e) => Ok(SchemaError::InvalidActionType(e.clone_in(
                alloc,
            )?)),
            SchemaError::EnumEntityInHierarchy(e) => Ok(SchemaError::EnumEntityInHierarchy(
                e.clone_in(alloc)?,
            )),
            SchemaError::Memory => Ok(SchemaError::Memory),
        }
    }
}
