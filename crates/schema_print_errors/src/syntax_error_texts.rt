ghost use Rattle.std.specs.Prelude.{◌≡◌, IfOk, Some};
ghost use Rattle.schema_print_errors.specs.SyntaxErrorTexts.{texts_of_names, collisions_text, shapes_text, shapes_help};
ghost use Rattle.schema_print_errors.specs.SyntaxErrorTexts.{syntax_error_text, syntax_error_help};

use crate::syntax_error::{
    NameCollisionsError, ToCedarSchemaSyntaxError, UnconvertibleEntityTypeShapeError,
};
use cedar_data::{Diagnostic, Label, NonEmpty, Severity, Text, around, comma_list, message};
use cedar_identifiers::{InternalName, NameText};
use std::alloc::{AllocError, Global};

impl Diagnostic for NameCollisionsError {
    ghost text = { λ e. collisions_text e.names };

    /// What the error says, with the names.
    fn text(&self, alloc: Global) -> Result<Text, AllocError> {
        let names = texts_of_names(alloc, &self.names)?;
        let list = comma_list(alloc, &names)?;
        around(alloc, "There are name collisions: [", &list, "]")
    }

    fn help(&self, _alloc: Global, _source: &str) -> Result<Option<Text>, AllocError> {
        Ok(None)
    }

    fn labels(&self, alloc: Global) -> Result<Vec<Label>, AllocError> {
        Ok(Vec::new(alloc))
    }

    fn severity(&self) -> Severity {
        Severity::Error
    }
}

impl Diagnostic for UnconvertibleEntityTypeShapeError {
    ghost text = { λ e. shapes_text e.names };

    ghost help = { λ _ _. Some shapes_help };

    /// What the error says, with the names of the entity types.
    fn text(&self, alloc: Global) -> Result<Text, AllocError> {
        let names = texts_of_names(alloc, &self.names)?;
        let list = comma_list(alloc, &names)?;
        let before =
            "The following entities have shapes that cannot be converted to Cedar schema syntax: [";
        around(alloc, before, &list, "]")
    }

    fn help(&self, alloc: Global, _source: &str) -> Result<Option<Text>, AllocError> {
        let advice = message(
            alloc,
            "Entity shapes may only be record types. In the Cedar schema syntax, they additionally may not reference common type definitions.",
        )?;
        Ok(Some(advice))
    }

    fn labels(&self, alloc: Global) -> Result<Vec<Label>, AllocError> {
        Ok(Vec::new(alloc))
    }

    fn severity(&self) -> Severity {
        Severity::Error
    }
}

impl Diagnostic for ToCedarSchemaSyntaxError {
    ghost text = { syntax_error_text };

    ghost help = { λ e _. syntax_error_help e };

    fn text(&self, alloc: Global) -> Result<Text, AllocError> {
        match self {
            ToCedarSchemaSyntaxError::NameCollisions(error) => error.text(alloc),
            ToCedarSchemaSyntaxError::UnconvertibleEntityTypeShape(error) => error.text(alloc),
            ToCedarSchemaSyntaxError::Memory => message(alloc, "out of memory"),
        }
    }

    fn help(&self, alloc: Global, source: &str) -> Result<Option<Text>, AllocError> {
        match self {
            ToCedarSchemaSyntaxError::NameCollisions(error) => error.help(alloc, source),
            ToCedarSchemaSyntaxError::UnconvertibleEntityTypeShape(error) => {
                error.help(alloc, source)
            }
            ToCedarSchemaSyntaxError::Memory => Ok(None),
        }
    }

    fn labels(&self, alloc: Global) -> Result<Vec<Label>, AllocError> {
        Ok(Vec::new(alloc))
    }

    fn severity(&self) -> Severity {
        Severity::Error
    }
}

// The texts of the names, in order.
fn texts_of_names(alloc: Global, names: &NonEmpty<InternalName>) -> Result<Vec<Text>, AllocError>
    ensures { IfOk result (λ texts. texts.items ≡ texts_of_names names.now) }
{
    let mut texts = Vec::new(alloc);
    for name in names.iter() {
        texts.push(name.text(alloc)?)?;
    }
    Ok(texts)
}
