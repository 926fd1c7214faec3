ghost use Rattle.std.specs.Prelude.{◌≡◌, ◌↔◌, true};
ghost use Rattle.schema_build_types.specs.Content.{content};

use crate::actions::same_declared_actions;
use crate::entity_types::same_entity_types;
use schema_build_types::{ActionEntry, EntityTypeEntry};

/// Whether a schema of these entity types and actions says the same as one of those. It takes no memory.
pub fn same_content(
    a_entities: &[EntityTypeEntry],
    a_actions: &[ActionEntry],
    b_entities: &[EntityTypeEntry],
    b_actions: &[ActionEntry],
) -> bool
    ensures { result ≡ true ↔ content a_entities.now a_actions.now ≡ content b_entities.now b_actions.now }
{
    if same_entity_types(a_entities, b_entities) {
        same_declared_actions(a_actions, b_actions)
    } else {
        false
    }
}
