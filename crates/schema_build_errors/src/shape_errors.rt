ghost use Rattle.std.specs.Prelude.{◌≡◌, IfOk, Some};
ghost use Rattle.schema_resolve_errors.specs.ErrorTexts.{label_at};
ghost use Rattle.schema_resolve_errors.specs.Gathered.{if_there};
ghost use Rattle.schema_build_errors.specs.ShapeTexts.{shape_subject, no_record_text, no_record_help, subject_place};
ghost use Rattle.schema_build_errors.specs.ShapeTexts.{type_message};

use crate::places::place_labels;
use cedar_data::{CloneIn, Diagnostic, Label, Loc, Severity, Text, around, message};
use cedar_identifiers::{Name, NameText};
use cedar_names::EntityUID;
use std::alloc::{AllocError, Global};

/// What has a type that must be a record: the context of an action, or the shape of an entity type.
pub enum ContextOrShape {
    /// The context of this action.
    ActionContext(EntityUID),
    /// The shape of this entity type.
    EntityTypeShape(Name),
}

impl Drop for ContextOrShape {
    fn drop(self) {
        match self {
            ContextOrShape::ActionContext(_value) => {}
            ContextOrShape::EntityTypeShape(_value) => {}
        }
    }
}

impl ContextOrShape {
    ghost use Rattle.std.specs.Option.{option_copied};

    /// The place of the action or of the name.
    pub fn loc(&self) -> Option<&Loc>
        ensures place { option_copied result ≡ subject_place self.now }
    {
        match self {
            ContextOrShape::ActionContext(uid) => uid.loc.as_ref(),
            ContextOrShape::EntityTypeShape(name) => name.name.loc.as_ref(),
        }
    }

    // What the context or the shape is called.
    fn subject(&self, alloc: Global) -> Result<Text, AllocError>
        ensures { IfOk result (λ text. text ≡ shape_subject self.now) }
    {
        match self {
            ContextOrShape::ActionContext(uid) => {
                let mut text = message(alloc, "Context for action ")?;
                text.push_text(&uid.text(alloc)?)?;
                Ok(text)
            }
            ContextOrShape::EntityTypeShape(name) => {
                let mut text = message(alloc, "Shape for entity type ")?;
                text.push_text(&name.text(alloc)?)?;
                Ok(text)
            }
        }
    }
}

impl CloneIn for ContextOrShape {
    fn clone_in(&self, alloc: Global) -> Result<Self, AllocError> {
        match self {
            ContextOrShape::ActionContext(uid) => {
                Ok(ContextOrShape::ActionContext(uid.clone_in(alloc)?))
            }
            ContextOrShape::EntityTypeShape(name) => {
                Ok(ContextOrShape::EntityTypeShape(name.clone_in(alloc)?))
            }
        }
    }
}

/// An entity type whose shape, or an action whose context, is no record.
pub struct ContextOrShapeNotRecordError {
    /// The least such entity type, or else the least such action, at the place of its declaration.
    pub ctx_or_shape: ContextOrShape,
}

impl Drop for ContextOrShapeNotRecordError {
    fn drop(self) {
        let ContextOrShapeNotRecordError {
            ctx_or_shape: _ctx_or_shape,
        } = self;
    }
}

impl Diagnostic for ContextOrShapeNotRecordError {
    ghost text = { no_record_text };

    ghost help = { λ e _. Some (no_record_help e.ctx_or_shape) };

    ghost labels = { λ e. if_there label_at (subject_place e.ctx_or_shape) };

    fn text(&self, alloc: Global) -> Result<Text, AllocError> {
        let subject = self.ctx_or_shape.subject(alloc)?;
        type_message(alloc, &subject)
    }

    fn help(&self, alloc: Global, _source: &str) -> Result<Option<Text>, AllocError> {
        let advice = match self.ctx_or_shape {
            ContextOrShape::ActionContext(_) => "action contexts must have type `Record`",
            ContextOrShape::EntityTypeShape(_) => "entity type shapes must have type `Record`",
        };
        Ok(Some(message(alloc, advice)?))
    }

    /// The place of the declaration.
    fn labels(&self, alloc: Global) -> Result<Vec<Label>, AllocError> {
        place_labels(alloc, self.ctx_or_shape.loc().copied())
    }

    fn severity(&self) -> Severity {
        Severity::Error
    }
}

impl CloneIn for ContextOrShapeNotRecordError {
    fn clone_in(&self, alloc: Global) -> Result<Self, AllocError> {
        Ok(ContextOrShapeNotRecordError {
            ctx_or_shape: self.ctx_or_shape.clone_in(alloc)?,
        })
    }
}

// What is said of a context or a shape.
fn type_message(alloc: Global, subject: &Text) -> Result<Text, AllocError>
    ensures { IfOk result (λ text. text ≡ type_message subject.now) }
{
    around(
        alloc,
        "",
        subject,
        " is declared with a type other than `Record`",
    )
}
