use crate::entity_type::AttributesOrContext;
use cedar_data::{List, Set, Text};
use cedar_identifiers::RawName;

/// An action: its members `attributes`, `appliesTo` and `memberOf`, where they are there and not null.
#[derive(PartialEq, Eq, Drop)]
pub struct ActionType {
    /// The keys of `attributes`.
    pub attributes: Option<Set<Text>>,
    pub applies_to: Option<ApplySpec>,
    pub member_of: Option<List<ActionEntityUID>>,
}

/// What an action may be applied to: the lists `resourceTypes` and `principalTypes`, where they are there and not null,
/// and the type `context`, which is the closed record without attributes where it is absent.
#[derive(PartialEq, Eq, Drop)]
pub struct ApplySpec {
    pub resource_types: Option<List<RawName>>,
    pub principal_types: Option<List<RawName>>,
    pub context: AttributesOrContext,
}

/// A reference to an action: the text `id`, and the name `type`, where it is there and not null.
#[derive(PartialEq, Eq, Drop)]
pub struct ActionEntityUID {
    pub id: Text,
    pub ty: Option<RawName>,
}
