use crate::action_type::ActionType;
use crate::entity_type::EntityType;
use crate::types::SchemaType;
use cedar_data::{Map, Text};
use cedar_identifiers::UnreservedId;
use schema_json::CommonTypeId;

/// A fragment of a schema: the object from the text of a namespace's name to the namespace. The empty text names the
/// empty namespace.
#[derive(PartialEq, Eq, Drop)]
pub struct SchemaFragment(pub Map<Text, NamespaceDefinition>);

/// A namespace: the objects `commonTypes`, which may be absent, `entityTypes` and `actions`, by name.
#[derive(PartialEq, Eq, Drop)]
pub struct NamespaceDefinition {
    pub common_types: Map<CommonTypeId, SchemaType>,
    pub entity_types: Map<UnreservedId, EntityType>,
    pub actions: Map<Text, ActionType>,
}
