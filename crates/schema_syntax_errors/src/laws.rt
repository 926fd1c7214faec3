ghost use Rattle.std.specs.Prelude.{◌≡◌, ◌↔◌, true};

use crate::annotation_error::AnnotationError;
use crate::parse_error::ParseError;
use crate::parse_errors::ParseErrors;
use crate::parse_schema_error::ParseSchemaError;
use crate::user_error::UserError;

/// User faults are equal exactly where they are the same, places included.
pub fn user_errors_by_value(a: &UserError, b: &UserError)
    ensures { ⟦<UserError as PartialEq>⟧.eq a.now b.now ≡ true ↔ a.now ≡ b.now }
{}

/// Faults of a text are equal exactly where they are the same.
pub fn parse_errors_by_value(a: &ParseError, b: &ParseError)
    ensures { ⟦<ParseError as PartialEq>⟧.eq a.now b.now ≡ true ↔ a.now ≡ b.now }
{}

/// Lists of faults are equal exactly where they are the same.
pub fn parse_error_lists_by_value(a: &ParseErrors, b: &ParseErrors)
    ensures { ⟦<ParseErrors as PartialEq>⟧.eq a.now b.now ≡ true ↔ a.now ≡ b.now }
{}

/// Reasons why a text was not read as a schema are equal exactly where they are the same.
pub fn parse_schema_errors_by_value(a: &ParseSchemaError, b: &ParseSchemaError)
    ensures { ⟦<ParseSchemaError as PartialEq>⟧.eq a.now b.now ≡ true ↔ a.now ≡ b.now }
{}

/// Reasons why annotations were not put on an item are equal exactly where they are the same.
pub fn annotation_errors_by_value(a: &AnnotationError, b: &AnnotationError)
    ensures { ⟦<AnnotationError as PartialEq>⟧.eq a.now b.now ≡ true ↔ a.now ≡ b.now }
{}
