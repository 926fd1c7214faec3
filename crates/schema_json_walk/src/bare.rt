ghost use Rattle.std.specs.Prelude.{◌≡◌};
ghost use Rattle.schema_json_walk.specs.Bare.{is_bare_entity, is_bare_action};

use cedar_identifiers::NameText;
use schema_json::{ActionType, EntityType, EntityTypeKind};

/// Whether the entity type is no enum and has a closed shape without attributes and no tags.
pub fn is_bare_entity<N>(entity: &EntityType<N>) -> bool
    ensures { result ≡ is_bare_entity entity.now }
{
    match &entity.kind {
        EntityTypeKind::Standard(standard) => {
            let standard = standard.get();
            standard.shape.is_empty_record() && standard.tags.is_none()
        }
        EntityTypeKind::Enum { .. } => false,
    }
}

/// Whether neither attributes of the action are written, not even none, nor what it applies to.
pub fn is_bare_action<N: NameText>(action: &ActionType<N>) -> bool
    ensures { result ≡ is_bare_action action.now }
{
    action.attributes.is_none() && action.applies_to.is_none()
}
