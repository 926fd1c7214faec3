ghost use Rattle.std.specs.Prelude.{◌≡◌, IfOk, MatchOption};
ghost use Rattle.std.specs.List.Sorted.{IsStrictlySortedBy};
ghost use Rattle.std.specs.Map.{keys_of};
ghost use Rattle.std.specs.Option.{option_map};
ghost use Rattle.cedar_names.specs.Meaning.{SchemaMeaning};
ghost use Rattle.cedar_names.specs.Orders.{names_in_order, uids_in_order};
ghost use Rattle.schema_build_text.specs.Readings.{schema_reading};
ghost use Rattle.schema_build_types.specs.Content.{content};
ghost use Rattle.schema_inclusion_values.specs.Admits.{Admits};
ghost use Rattle.schema_inclusion_values.specs.Seen.{schema_value};
ghost use Rattle.schema_inclusion_values.specs.Settled.{IsSettled};
ghost use Rattle.schema_inclusion_reasons.specs.Reasons.{IsFirstReason};
ghost use Rattle.schema_inclusion_explain.specs.HeldReasons.{held_reason};

use crate::laws::the_first_reason_of_built_schemas_is_found;
use crate::reasons::{Reason, reason_between};
use schema_inclusion_check::Lent;
use schema_inclusion_values::SchemaValue;
use std::alloc::{AllocError, Global};

/// Why a built schema does not admit the value: the first reason, or none where the schema admits it. The entity types
/// and the actions stand in the order of their names, as a built schema lends them, and the meaning is settled, as that
/// of each schema text is.
pub fn reason_of(
    alloc: Global,
    schema: &Lent<'_>,
    value: &SchemaValue,
) -> Result<Option<Reason>, AllocError>
    requires entities { IsStrictlySortedBy (λ a b. names_in_order a.name b.name) (keys_of schema.now.entities.now) }
    requires actions { IsStrictlySortedBy uids_in_order (keys_of schema.now.actions.now) }
    ensures { IfOk result (λ r. (m : SchemaMeaning)
        → schema_reading (content schema.now.entities.now schema.now.actions.now) ≡ m → IsSettled m
        → MatchOption (option_map held_reason r) (Admits m (schema_value value.now))
        (IsFirstReason m (schema_value value.now))) }
{
    the_first_reason_of_built_schemas_is_found();
    reason_between(alloc, schema, value)
}
