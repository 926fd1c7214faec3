ghost use Rattle.std.specs.Prelude.{Some};
ghost use Rattle.schema_build_errors.specs.UseTexts.{unknown_extension_text, unsupported_text, undeclared_types_text};
ghost use Rattle.schema_build_errors.specs.UseTexts.{undeclared_types_help, undeclared_labels};

use crate::places::add_place;
use cedar_data::{
    CloneIn, Diagnostic, Label, List, NonEmpty, Severity, Text, and_list, around, by_number,
    message,
};
use cedar_identifiers::{Name, NameText};
use schema_resolve_errors::name_texts::name_texts;
use std::alloc::{AllocError, Global};

/// An extension type that the table does not hold.
pub struct UnknownExtensionTypeError {
    /// The name of the extension type.
    pub actual: Name,
}

impl Drop for UnknownExtensionTypeError {
    fn drop(self) {
        let UnknownExtensionTypeError { actual: _actual } = self;
    }
}

impl Diagnostic for UnknownExtensionTypeError {
    ghost text = { unknown_extension_text };

    fn text(&self, alloc: Global) -> Result<Text, AllocError> {
        let name = self.actual.text(alloc)?;
        around(alloc, "unknown extension type `", &name, "`")
    }

    fn help(&self, _alloc: Global, _source: &str) -> Result<Option<Text>, AllocError> {
        Ok(None)
    }

    fn labels(&self, alloc: Global) -> Result<Vec<Label>, AllocError> {
        Ok(Vec::new(alloc))
    }

    fn severity(&self) -> Severity {
        Severity::Error
    }
}

impl CloneIn for UnknownExtensionTypeError {
    fn clone_in(&self, alloc: Global) -> Result<Self, AllocError> {
        Ok(UnknownExtensionTypeError {
            actual: self.actual.clone_in(alloc)?,
        })
    }
}

/// What a fragment may say and a schema may not have.
pub enum UnsupportedFeature {
    /// A record, and so an entity type, that is open for further attributes.
    OpenRecordsAndEntities,
    /// Attributes of an action, by their names.
    ActionAttributes(List<Text>),
    /// An external declaration that says more than its name, its parents and its annotations.
    ExternalNotBare,
}

impl Drop for UnsupportedFeature {
    fn drop(self) {
        match self {
            UnsupportedFeature::OpenRecordsAndEntities => {}
            UnsupportedFeature::ActionAttributes(_value) => {}
            UnsupportedFeature::ExternalNotBare => {}
        }
    }
}

impl CloneIn for UnsupportedFeature {
    fn clone_in(&self, alloc: Global) -> Result<Self, AllocError> {
        match self {
            UnsupportedFeature::OpenRecordsAndEntities => {
                Ok(UnsupportedFeature::OpenRecordsAndEntities)
            }
            UnsupportedFeature::ActionAttributes(names) => {
                Ok(UnsupportedFeature::ActionAttributes(names.clone_in(alloc)?))
            }
            UnsupportedFeature::ExternalNotBare => Ok(UnsupportedFeature::ExternalNotBare),
        }
    }
}

/// A part of a fragment that a schema may not have.
pub struct UnsupportedFeatureError(pub UnsupportedFeature);

impl Drop for UnsupportedFeatureError {
    fn drop(self) {
        let UnsupportedFeatureError(_value) = self;
    }
}

impl Diagnostic for UnsupportedFeatureError {
    ghost text = { unsupported_text };

    fn text(&self, alloc: Global) -> Result<Text, AllocError> {
        message(alloc, "unsupported feature used in schema")
    }

    fn help(&self, _alloc: Global, _source: &str) -> Result<Option<Text>, AllocError> {
        Ok(None)
    }

    fn labels(&self, alloc: Global) -> Result<Vec<Label>, AllocError> {
        Ok(Vec::new(alloc))
    }

    fn severity(&self) -> Severity {
        Severity::Error
    }
}

impl CloneIn for UnsupportedFeatureError {
    fn clone_in(&self, alloc: Global) -> Result<Self, AllocError> {
        Ok(UnsupportedFeatureError(self.0.clone_in(alloc)?))
    }
}

/// Parents, principals or resources that are no declared entity types.
pub struct UndeclaredEntityTypesError {
    /// Their names, sorted, each once and at the place of its first use.
    pub types: NonEmpty<Name>,
}

impl Drop for UndeclaredEntityTypesError {
    fn drop(self) {
        let UndeclaredEntityTypesError { types: _types } = self;
    }
}

impl Diagnostic for UndeclaredEntityTypesError {
    ghost text = { undeclared_types_text };

    ghost help = { λ _ _. Some undeclared_types_help };

    ghost labels = { λ e. undeclared_labels e.types };

    fn text(&self, alloc: Global) -> Result<Text, AllocError> {
        let names = name_texts(alloc, &self.types)?;
        let one = "undeclared entity type: ";
        let several = "undeclared entity types: ";
        let mut text = by_number(alloc, &names, one, several)?;
        text.push_text(&and_list(alloc, &names)?)?;
        Ok(text)
    }

    fn help(&self, alloc: Global, _source: &str) -> Result<Option<Text>, AllocError> {
        let advice = message(
            alloc,
            "any entity types appearing anywhere in a schema need to be declared in `entityTypes`",
        )?;
        Ok(Some(advice))
    }

    /// The places of the first uses, in order. A name without a place gives none.
    fn labels(&self, alloc: Global) -> Result<Vec<Label>, AllocError> {
        let mut labels = Vec::new(alloc);
        for name in self.types.iter() {
            add_place(&mut labels, name.name.loc)?;
        }
        Ok(labels)
    }

    fn severity(&self) -> Severity {
        Severity::Error
    }
}

impl CloneIn for UndeclaredEntityTypesError {
    fn clone_in(&self, alloc: Global) -> Result<Self, AllocError> {
        Ok(UndeclaredEntityTypesError {
            types: self.types.clone_in(alloc)?,
        })
    }
}
