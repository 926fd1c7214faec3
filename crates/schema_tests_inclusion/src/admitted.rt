// Which values a built schema admits, read off the definition by plain loops.

use cedar_data::{List, NonEmpty, Shared, Text};
use cedar_identifiers::{Eid, Name, UnreservedId};
use cedar_names::EntityUID;
use schema_build::ValidatorSchema;
use schema_build_types::{
    EntityTypeEntry, Type, ValidatorActionId, ValidatorActionKind, ValidatorEntityTypeKind,
};
use schema_inclusion::{SchemaValue, Val};

// Is the id one of the choices?
fn has_choice(choices: &NonEmpty<Eid>, id: &Text) -> bool {
    for choice in choices.iter() {
        if choice.0 == *id {
            return true;
        }
    }
    false
}

// The entity type of this name.
fn entity_type<'a>(schema: &'a ValidatorSchema, name: &Name) -> Option<&'a EntityTypeEntry> {
    for entry in schema.entity_types() {
        if entry.name == *name {
            return Some(entry);
        }
    }
    None
}

// Is there an action of this type with this id?
fn is_action(schema: &ValidatorSchema, ty: &Name, id: &Text) -> bool {
    for entry in schema.actions() {
        if entry.uid.ty == *ty && entry.uid.eid.0 == *id {
            return true;
        }
    }
    false
}

// Has the entity type this id, or an action of the type?
fn fits(schema: &ValidatorSchema, ty: &Name, id: &Text) -> bool {
    match entity_type(schema, ty) {
        None => is_action(schema, ty, id),
        Some(entry) => match &entry.ty.kind {
            ValidatorEntityTypeKind::Enum(choices) => has_choice(choices, id),
            _ => true,
        },
    }
}

// Is the type that of the entity, with an id that fits?
fn has_entity(schema: &ValidatorSchema, ty: &Type, name: &Name, id: &Text) -> bool {
    match ty {
        Type::Entity { names } => names.get().first() == name && fits(schema, name, id),
        _ => false,
    }
}

// Is the type the extension type of this name?
fn is_extension(ty: &Type, name: &UnreservedId) -> bool {
    match ty {
        Type::Extension { name: other } => other == name,
        _ => false,
    }
}

// The attributes of a record type.
fn attributes_of(ty: &Type) -> Option<&[(Text, (Type, bool))]> {
    match ty {
        Type::Record { attrs, .. } => Some(attrs.as_slice()),
        _ => None,
    }
}

// The type of the members of a set type.
fn members_of(ty: &Type) -> Option<&Type> {
    match ty {
        Type::Set {
            element: Some(element),
        } => Some(element.get()),
        _ => None,
    }
}

// Has the type the value? It is nested no deeper than so many levels.
#[cycle(has)]
fn has(schema: &ValidatorSchema, ty: &Type, value: &Val, levels: u8) -> bool {
    if levels == 0 {
        return false;
    }
    match value {
        Val::Bool(_) => matches!(ty, Type::AnyBool),
        Val::Long(_) => matches!(ty, Type::Long),
        Val::Str(_) => matches!(ty, Type::String),
        Val::Ext(name) => is_extension(ty, name),
        Val::Ref(name, id) => has_entity(schema, ty, name, id),
        Val::Set(members) => match members_of(ty) {
            Some(ty) => has_members(schema, ty, members, levels - 1),
            None => false,
        },
        Val::Rec(entries) => match attributes_of(ty) {
            Some(attrs) => has_entries(schema, attrs, entries.as_slice(), levels - 1),
            None => false,
        },
    }
}

// Has the type each of the members?
#[cycle(has)]
fn has_members(schema: &ValidatorSchema, ty: &Type, members: &List<Val>, levels: u8) -> bool {
    if levels == 0 {
        return false;
    }
    for member in members.as_slice() {
        if !has(schema, ty, member, levels - 1) {
            return false;
        }
    }
    true
}

// The type of the attribute of this name.
fn type_of<'a>(attrs: &'a [(Text, (Type, bool))], name: &Text) -> Option<&'a Type> {
    for (other, (ty, _)) in attrs {
        if other == name {
            return Some(ty);
        }
    }
    None
}

// Is an entry of this name there?
fn is_there(entries: &[(Text, Val)], name: &Text) -> bool {
    for (other, _) in entries {
        if other == name {
            return true;
        }
    }
    false
}

// Is each required attribute there?
fn all_there(attrs: &[(Text, (Type, bool))], entries: &[(Text, Val)]) -> bool {
    for (name, (_, required)) in attrs {
        if *required && !is_there(entries, name) {
            return false;
        }
    }
    true
}

// Have the attributes of a record these values, and is each required one there?
#[cycle(has)]
fn has_entries(
    schema: &ValidatorSchema,
    attrs: &[(Text, (Type, bool))],
    entries: &[(Text, Val)],
    levels: u8,
) -> bool {
    if levels == 0 {
        return false;
    }
    for (name, value) in entries {
        let Some(ty) = type_of(attrs, name) else {
            return false;
        };
        if !has(schema, ty, value, levels - 1) {
            return false;
        }
    }
    all_there(attrs, entries)
}

// Has the type of the tags each of these?
fn has_tags(schema: &ValidatorSchema, ty: Option<&Type>, tags: &[(Text, Val)]) -> bool {
    let Some(ty) = ty else {
        return tags.is_empty();
    };
    for (_, value) in tags {
        if !has(schema, ty, value, 32) {
            return false;
        }
    }
    true
}

// Is the name one of these?
fn is_name_in(names: &[Shared<Name>], name: &Name) -> bool {
    for other in names {
        if other.get() == name {
            return true;
        }
    }
    false
}

// Is each parent of a type above, with an id that fits?
fn has_parents(
    schema: &ValidatorSchema,
    ancestors: &[Shared<Name>],
    parents: &[(Name, Text)],
) -> bool {
    for (ty, id) in parents {
        if !is_name_in(ancestors, ty) || !fits(schema, ty, id) {
            return false;
        }
    }
    true
}

// Does the schema admit an entity of this type with this id and nothing else?
fn admits_id(schema: &ValidatorSchema, name: &Name, id: &Text) -> bool {
    match entity_type(schema, name) {
        None => false,
        Some(entry) => match &entry.ty.kind {
            ValidatorEntityTypeKind::Standard { .. } => true,
            ValidatorEntityTypeKind::Enum(choices) => has_choice(choices, id),
            ValidatorEntityTypeKind::External => false,
        },
    }
}

// Does the schema admit these attributes, tags and parents of an entity of this type?
fn admits_parts(
    schema: &ValidatorSchema,
    name: &Name,
    attrs: &[(Text, Val)],
    tags: &[(Text, Val)],
    parents: &[(Name, Text)],
) -> bool {
    let Some(entry) = entity_type(schema, name) else {
        return false;
    };
    match &entry.ty.kind {
        ValidatorEntityTypeKind::Standard {
            attributes,
            tags: own,
            ..
        } => {
            let own = match own {
                Some(ty) => Some(ty.get()),
                None => None,
            };
            has_entries(schema, attributes.as_slice(), attrs, 32)
                && has_tags(schema, own, tags)
                && has_parents(schema, entry.ty.ancestors.as_slice(), parents)
        }
        _ => attrs.is_empty() && tags.is_empty() && parents.is_empty(),
    }
}

// What is declared of the action.
fn action_of<'a>(schema: &'a ValidatorSchema, uid: &EntityUID) -> Option<&'a ValidatorActionId> {
    for entry in schema.actions() {
        if entry.uid == *uid {
            return Some(&entry.action);
        }
    }
    None
}

// Is the name one of these?
fn is_name(names: &[Name], name: &Name) -> bool {
    for other in names {
        if other == name {
            return true;
        }
    }
    false
}

// Does the schema admit the request?
fn admits_request(
    schema: &ValidatorSchema,
    uid: &EntityUID,
    principal: &Name,
    resource: &Name,
    context: &[(Text, Val)],
) -> bool {
    let Some(action) = action_of(schema, uid) else {
        return false;
    };
    match &action.kind {
        ValidatorActionKind::External => false,
        ValidatorActionKind::Defined {
            principals,
            resources,
            context: ty,
        } => match attributes_of(ty) {
            None => false,
            Some(attrs) => {
                is_name(principals.as_slice(), principal)
                    && is_name(resources.as_slice(), resource)
                    && has_entries(schema, attrs, context, 32)
            }
        },
    }
}

// Does the action stand below the other one?
fn is_below(schema: &ValidatorSchema, uid: &EntityUID, ancestor: &EntityUID) -> bool {
    let Some(action) = action_of(schema, uid) else {
        return false;
    };
    for other in action.ancestors.as_slice() {
        if other.get() == ancestor {
            return true;
        }
    }
    false
}

/// Does the schema admit the value?
pub fn admits(schema: &ValidatorSchema, value: &SchemaValue) -> bool {
    match value {
        SchemaValue::Entity {
            ty,
            id,
            attrs,
            tags,
            parents,
        } => {
            admits_id(schema, ty, id)
                && admits_parts(
                    schema,
                    ty,
                    attrs.as_slice(),
                    tags.as_slice(),
                    parents.as_slice(),
                )
        }
        SchemaValue::Request {
            action,
            principal,
            resource,
            context,
        } => admits_request(schema, action, principal, resource, context.as_slice()),
        SchemaValue::ActionIn { action, ancestor } => is_below(schema, action, ancestor),
    }
}
