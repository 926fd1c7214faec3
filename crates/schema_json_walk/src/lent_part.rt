use cedar_data::{Set, Text};
use cedar_identifiers::{ReferenceType, UnreservedId};

/// What the walk of a fragment meets, lent from the fragment.
#[derive(Drop)]
pub enum LentPart<'a, N> {
    /// Within a type: what must be a common type, what must be an entity type, or what may be either.
    TypeReference { kind: ReferenceType, name: &'a N },
    /// A context that is itself a reference to a common type.
    ContextReference { name: &'a N },
    /// A parent of an entity type.
    Parent { name: &'a N },
    /// A principal of an action.
    Principal { name: &'a N },
    /// A resource of an action.
    Resource { name: &'a N },
    /// A parent of an action, by its id and its type, where one is written.
    ActionParent { id: &'a Text, ty: &'a Option<N> },
    /// A type of the extension table.
    ExtensionType { name: &'a UnreservedId },
    /// A record in which others than its attributes may stand.
    OpenRecord,
    /// The names of an action's attributes, where any are written.
    ActionAttributes { names: &'a Set<Text> },
    /// An entity type or an action that another schema declares, with more than such a one may have.
    ExternalNotBare,
}
