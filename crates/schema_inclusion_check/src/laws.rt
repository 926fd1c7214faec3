//! Laws of meanings whose lists stand in any order. Each law is what its function ensures.
ghost use Rattle.std.specs.Prelude.{◌≡◌, List};
ghost use Rattle.std.specs.Option.{option_map};
ghost use Rattle.cedar_identifiers.specs.declared.name.Name.{Name};
ghost use Rattle.cedar_names.specs.Meaning.{SchemaMeaning};
ghost use Rattle.cedar_names.specs.declared.entity_uid.EntityUID.{EntityUID};
ghost use Rattle.schema_build_types.specs.Content.{content};
ghost use Rattle.schema_build_types.specs.declared.entity_type.ValidatorEntityType.{ValidatorEntityType as Entity};
ghost use Rattle.schema_build_types.specs.declared.action.ValidatorActionId.{ValidatorActionId as Action};
ghost use Rattle.schema_build_text.specs.Readings.{schema_reading};
ghost use Rattle.schema_inclusion_values.specs.Admits.{IsInclusion};
ghost use Rattle.schema_inclusion_values.specs.Lost.{lost};
ghost use Rattle.schema_inclusion_values.specs.Settled.{IsSettled};
ghost use Rattle.schema_inclusion_check.specs.Raw.{raw_meaning};
ghost use Rattle.schema_inclusion_check.specs.Subjects.{subject};

use schema_inclusion_values::laws::the_first_lost_is_found;

/// What is first lost between two built schemas, with their lists as they stand, is first lost between their meanings,
/// where these are settled.
pub fn the_first_lost_of_built_schemas_is_found()
    ensures { (entities more_entities : List (Name × Entity)) (actions more_actions : List (EntityUID × Action))
        (old new : SchemaMeaning) → schema_reading (content entities actions) ≡ old
        → schema_reading (content more_entities more_actions) ≡ new → IsSettled old → IsSettled new
        → IsInclusion old new (lost (raw_meaning entities actions) (raw_meaning more_entities more_actions)) }
{
    the_first_lost_is_found();
}

/// What is first lost between two built schemas, with their lists as they stand, is about the same entity or action as
/// what is first lost between their meanings, where these are settled.
pub fn the_first_lost_is_about_the_same()
    ensures { (entities more_entities : List (Name × Entity)) (actions more_actions : List (EntityUID × Action))
        (old new : SchemaMeaning) → schema_reading (content entities actions) ≡ old
        → schema_reading (content more_entities more_actions) ≡ new → IsSettled old → IsSettled new
        → option_map subject (lost (raw_meaning entities actions) (raw_meaning more_entities more_actions))
        ≡ option_map subject (lost old new) }
{
    the_first_lost_is_found();
    the_first_lost_of_built_schemas_is_found();
}
