use crate::types::SchemaType;
use cedar_data::List;
use cedar_identifiers::RawName;

/// An entity type: the list `memberOfTypes`, which is empty where it is absent, and the type `shape`, which is the
/// closed record without attributes where it is absent.
#[derive(PartialEq, Eq, Drop)]
pub struct EntityType {
    pub member_of_types: List<RawName>,
    pub shape: AttributesOrContext,
}

/// The type of an entity type's attributes or of an action's context.
#[derive(PartialEq, Eq, Drop)]
pub struct AttributesOrContext(pub SchemaType);
