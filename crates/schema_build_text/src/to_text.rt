ghost use Rattle.std.specs.Prelude.{◌≡◌, OnOk, IfOk, IfErr};
ghost use Rattle.std.specs.Str.{encode_utf8_all};
ghost use Rattle.cedar_names.specs.Meaning.{SchemaMeaning};
ghost use Rattle.cedar_names.specs.CanonicalText.{canonical_text};
ghost use Rattle.schema_build_types.specs.Standing.{SchemaStandsFor};
ghost use Rattle.schema_build_text.specs.Captured.{IsUncaptured, IsTextRefusal};

use crate::captured::first_captured_of;
use crate::items::items_in_order;
use crate::printing::print_items;
use cedar_data::Text;
use schema_build_errors::ToTextError;
use schema_build_types::{ActionEntry, EntityTypeEntry};
use std::alloc::Global;

/// The canonical text of a built schema of which nothing is captured; `Captured` where an item is captured, and about
/// the first of them.
pub fn uncaptured_schema_text(
    alloc: Global,
    entities: &[EntityTypeEntry],
    actions: &[ActionEntry],
) -> Result<Text, ToTextError>
    ensures text { IfOk result (λ text. (m : SchemaMeaning) → SchemaStandsFor entities.now actions.now m
        → encode_utf8_all text ≡ canonical_text m) }
    ensures uncaptured { OnOk result ((m : SchemaMeaning) → SchemaStandsFor entities.now actions.now m
        → IsUncaptured m) }
    ensures refusal { IfErr result (λ e. (m : SchemaMeaning) → SchemaStandsFor entities.now actions.now m
        → IsTextRefusal m e) }
{
    let items = items_in_order(alloc, entities, actions)?;
    match first_captured_of(alloc, &items)? {
        Some(captured) => Err(ToTextError::Captured(captured)),
        None => Ok(print_items(alloc, &items)?),
    }
}
