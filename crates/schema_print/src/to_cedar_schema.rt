ghost use Rattle.std.specs.Prelude.{◌≡◌, ℕ, List, IfOk, IfErr, true};
ghost use Rattle.std.specs.Str.{encode_utf8_all};
ghost use Rattle.schema_print_errors.specs.declared.syntax_error.ToCedarSchemaSyntaxError.{
  ToCedarSchemaSyntaxError as
      Refusal,
};
ghost use Rattle.schema_print.specs.PartTexts.{fragment_part_text};
ghost use Rattle.schema_print.specs.PrintedFragments.{fragment_text};
ghost use Rattle.schema_print.specs.Collisions.{HasText, IsUnprintable};

use crate::fragments::print_fragment;
use crate::unprintable::{collisions, shapeless, sorted_names};
use cedar_data::Text;
use cedar_identifiers::{InternalName, NameText};
use schema_json::Fragment;
use schema_print_errors::{
    NameCollisionsError, ToCedarSchemaSyntaxError, UnconvertibleEntityTypeShapeError,
};
use std::alloc::Global;

/// The fragment as a Cedar schema: by the layout of canonical text, with common types and annotations. Refused are
/// names that a named namespace has both as an entity type and as a common type, and else shapes of entity types that
/// are no records, those of external ones aside.
pub fn json_schema_to_cedar_schema_str<N: NameText>(
    alloc: Global,
    json_schema: &Fragment<N>,
) -> Result<Text, ToCedarSchemaSyntaxError>
    ensures text { IfOk result (λ text. encode_utf8_all text ≡ fragment_text N.components true json_schema.now) }
    ensures printable { IfOk result (λ text. HasText json_schema.now) }
    ensures err { IfErr result (IsUnprintable ⟦<InternalName as Ord>⟧.cmp json_schema.now) }
{
    if let Some(names) = sorted_names(collisions(alloc, json_schema)?)? {
        let error = NameCollisionsError { names };
        return Err(ToCedarSchemaSyntaxError::NameCollisions(error));
    }
    if let Some(names) = sorted_names(shapeless(alloc, json_schema)?)? {
        let error = UnconvertibleEntityTypeShapeError { names };
        return Err(ToCedarSchemaSyntaxError::UnconvertibleEntityTypeShape(error));
    }
    Ok(print_fragment(alloc, json_schema)?)
}

/// What can be printed as a Cedar schema.
pub trait ToCedarSchema {
    /// The bytes of its text.
    ghost schema_text: { Self → List ℕ };

    /// Nothing stands against its text.
    ghost CanPrint: { Self → Type 0 };

    /// Why it has none.
    ghost CannotPrint: { Self → Refusal → Type 0 };

    /// Its text, or why it has none; or out of memory.
    fn to_cedarschema(&self, alloc: Global) -> Result<Text, ToCedarSchemaSyntaxError>
        ensures text { IfOk result (λ text. encode_utf8_all text ≡ schema_text self.now) }
        ensures printable { IfOk result (λ text. CanPrint self.now) }
        ensures err { IfErr result (CannotPrint self.now) };
}

impl<N: NameText> ToCedarSchema for Fragment<N> {
    ghost schema_text = { fragment_part_text N.components 0 };

    ghost CanPrint = { HasText };

    ghost CannotPrint = { IsUnprintable ⟦<InternalName as Ord>⟧.cmp };

    fn to_cedarschema(&self, alloc: Global) -> Result<Text, ToCedarSchemaSyntaxError> {
        json_schema_to_cedar_schema_str(alloc, self)
    }
}
