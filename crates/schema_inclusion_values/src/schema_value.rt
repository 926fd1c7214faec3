use crate::val::Val;
use cedar_data::{List, Text};
use cedar_identifiers::Name;
use cedar_names::EntityUID;

/// What a schema can admit. The names of attributes and tags rise.
pub enum SchemaValue {
    /// An entity, with its attributes, its tags, and its parents by their types and ids.
    Entity {
        ty: Name,
        id: Text,
        attrs: List<(Text, Val)>,
        tags: List<(Text, Val)>,
        parents: List<(Name, Text)>,
    },
    /// A request: an action, the types of the principal and of the resource, and the context.
    Request {
        action: EntityUID,
        principal: Name,
        resource: Name,
        context: List<(Text, Val)>,
    },
    /// An action with one that it stands below.
    ActionIn {
        action: EntityUID,
        ancestor: EntityUID,
    },
}

impl Drop for SchemaValue {
    fn drop(self) {
        match self {
            SchemaValue::Entity {
                ty: _ty,
                id: _id,
                attrs: _attrs,
                tags: _tags,
                parents: _parents,
            } => {}
            SchemaValue::Request {
                action: _action,
                principal: _principal,
                resource: _resource,
                context: _context,
            } => {}
            SchemaValue::ActionIn {
                action: _action,
                ancestor: _ancestor,
            } => {}
        }
    }
}
