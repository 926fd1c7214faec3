//! A law of the reasons for which built schemas do not admit values: it is what its function ensures.
ghost use Rattle.std.specs.Prelude.{◌≡◌, List, MatchOption};
ghost use Rattle.cedar_identifiers.specs.declared.name.Name.{Name};
ghost use Rattle.cedar_names.specs.Meaning.{SchemaMeaning};
ghost use Rattle.cedar_names.specs.declared.entity_uid.EntityUID.{EntityUID};
ghost use Rattle.schema_build_types.specs.Content.{content};
ghost use Rattle.schema_build_types.specs.declared.entity_type.ValidatorEntityType.{ValidatorEntityType as Entity};
ghost use Rattle.schema_build_types.specs.declared.action.ValidatorActionId.{ValidatorActionId as Action};
ghost use Rattle.schema_build_text.specs.Readings.{schema_reading};
ghost use Rattle.schema_inclusion_values.specs.Admits.{SchemaValue, Admits};
ghost use Rattle.schema_inclusion_values.specs.Settled.{IsSettled};
ghost use Rattle.schema_inclusion_check.specs.Raw.{raw_meaning};
ghost use Rattle.schema_inclusion_reasons.specs.Reasons.{IsFirstReason};
ghost use Rattle.schema_inclusion_reasons.specs.FirstReason.{first_reason};

use schema_inclusion_reasons::laws::the_first_reason_is_found;

/// Where the meaning of a built schema is settled, the first reason by the schema's lists as they stand is the first
/// reason by the meaning; and where there is none, the meaning admits the value.
pub fn the_first_reason_of_built_schemas_is_found()
    ensures { (entities : List (Name × Entity)) (actions : List (EntityUID × Action)) (m : SchemaMeaning)
        → schema_reading (content entities actions) ≡ m → IsSettled m → (x : SchemaValue)
        → MatchOption (first_reason (raw_meaning entities actions) x) (Admits m x) (IsFirstReason m x) }
{
    the_first_reason_is_found();
}
