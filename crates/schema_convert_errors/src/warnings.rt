ghost use Rattle.cedar_data.specs.declared.severity.Severity.TheVariants.{Warning};
ghost use Rattle.schema_convert_errors.specs.WarningTexts.{shadows_builtin_text, shadows_entity_text, warning_text};
ghost use Rattle.schema_convert_errors.specs.WarningTexts.{builtin_labels, entity_labels, warning_labels};

use cedar_data::{CloneIn, Diagnostic, Label, Loc, Severity, Text, message, push_both};
use schema_syntax_errors::labels::{bare_label, bare_labels};
use std::alloc::{AllocError, Global};

/// A declared type that is named like a builtin one, with the place of its name.
#[derive(PartialEq, Eq)]
pub struct ShadowsBuiltinWarning {
    pub name: Text,
    /// The place of the name.
    pub loc: Option<Loc>,
}

impl Drop for ShadowsBuiltinWarning {
    fn drop(self) {
        let ShadowsBuiltinWarning {
            name: _name,
            loc: _loc,
        } = self;
    }
}

/// A common type that is named like an entity type of its namespace, with the places of both names.
#[derive(PartialEq, Eq)]
pub struct ShadowsEntityWarning {
    pub name: Text,
    /// The place of the entity type's name.
    pub entity_loc: Option<Loc>,
    /// The place of the common type's name.
    pub common_loc: Option<Loc>,
}

impl Drop for ShadowsEntityWarning {
    fn drop(self) {
        let ShadowsEntityWarning {
            name: _name,
            entity_loc: _entity_loc,
            common_loc: _common_loc,
        } = self;
    }
}

/// What a schema may do but should not.
#[derive(PartialEq, Eq)]
pub enum SchemaWarning {
    /// A declared type is named like a builtin one.
    ShadowsBuiltin(ShadowsBuiltinWarning),
    /// A common type is named like an entity type of its namespace.
    ShadowsEntity(ShadowsEntityWarning),
}

impl Drop for SchemaWarning {
    fn drop(self) {
        match self {
            SchemaWarning::ShadowsBuiltin(_value) => {}
            SchemaWarning::ShadowsEntity(_value) => {}
        }
    }
}

impl Diagnostic for ShadowsBuiltinWarning {
    ghost text = { shadows_builtin_text };

    ghost labels = { builtin_labels };

    ghost severity = { λ _. Warning };

    fn text(&self, alloc: Global) -> Result<Text, AllocError> {
        let mut text = message(alloc, "The name `")?;
        let middle =
            "` shadows a builtin Cedar name. You'll have to refer to the builtin as `__cedar::";
        push_both(&mut text, &self.name, middle)?;
        push_both(&mut text, &self.name, "`.")?;
        Ok(text)
    }

    fn help(&self, _alloc: Global, _source: &str) -> Result<Option<Text>, AllocError> {
        Ok(None)
    }

    fn labels(&self, alloc: Global) -> Result<Vec<Label>, AllocError> {
        bare_label(alloc, self.loc)
    }

    fn severity(&self) -> Severity {
        Severity::Warning
    }
}

impl Diagnostic for ShadowsEntityWarning {
    ghost text = { shadows_entity_text };

    ghost labels = { entity_labels };

    ghost severity = { λ _. Warning };

    fn text(&self, alloc: Global) -> Result<Text, AllocError> {
        let mut text = message(alloc, "The common type name ")?;
        push_both(&mut text, &self.name, " shadows an entity name")?;
        Ok(text)
    }

    fn help(&self, _alloc: Global, _source: &str) -> Result<Option<Text>, AllocError> {
        Ok(None)
    }

    fn labels(&self, alloc: Global) -> Result<Vec<Label>, AllocError> {
        bare_labels(alloc, self.entity_loc, self.common_loc)
    }

    fn severity(&self) -> Severity {
        Severity::Warning
    }
}

impl Diagnostic for SchemaWarning {
    ghost text = { warning_text };

    ghost labels = { warning_labels };

    ghost severity = { λ _. Warning };

    fn text(&self, alloc: Global) -> Result<Text, AllocError> {
        match self {
            SchemaWarning::ShadowsBuiltin(warning) => warning.text(alloc),
            SchemaWarning::ShadowsEntity(warning) => warning.text(alloc),
        }
    }

    fn help(&self, _alloc: Global, _source: &str) -> Result<Option<Text>, AllocError> {
        Ok(None)
    }

    fn labels(&self, alloc: Global) -> Result<Vec<Label>, AllocError> {
        match self {
            SchemaWarning::ShadowsBuiltin(warning) => warning.labels(alloc),
            SchemaWarning::ShadowsEntity(warning) => warning.labels(alloc),
        }
    }

    fn severity(&self) -> Severity {
        Severity::Warning
    }
}

impl CloneIn for ShadowsBuiltinWarning {
    fn clone_in(&self, alloc: Global) -> Result<Self, AllocError> {
        Ok(ShadowsBuiltinWarning {
            name: self.name.clone_in(alloc)?,
            loc: self.loc,
        })
    }
}

impl CloneIn for ShadowsEntityWarning {
    fn clone_in(&self, alloc: Global) -> Result<Self, AllocError> {
        Ok(ShadowsEntityWarning {
            name: self.name.clone_in(alloc)?,
            entity_loc: self.entity_loc,
            common_loc: self.common_loc,
        })
    }
}

impl CloneIn for SchemaWarning {
    fn clone_in(&self, alloc: Global) -> Result<Self, AllocError> {
        match self {
            SchemaWarning::ShadowsBuiltin(warning) => {
                Ok(SchemaWarning::ShadowsBuiltin(warning.clone_in(alloc)?))
            }
            SchemaWarning::ShadowsEntity(warning) => {
                Ok(SchemaWarning::ShadowsEntity(warning.clone_in(alloc)?))
            }
        }
    }
}
