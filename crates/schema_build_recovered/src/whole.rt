ghost use Rattle.std.specs.Prelude.{◌≡◌, [], true, All};
ghost use Rattle.std.specs.Option.{option_map};
ghost use Rattle.schema_build_types.specs.Content.{type_content, attributes_content, entity_content, action_content};
ghost use Rattle.schema_build_types.specs.Content.{content};
ghost use Rattle.schema_build_types.specs.Lacks.{type_lacks, attribute_lacks, context_lacks, tag_lacks, entity_lacks};
ghost use Rattle.schema_build_types.specs.Lacks.{schema_lacks};

use cedar_data::{Boxed, Text};
use schema_build_recovered_types::types::only_name;
use schema_build_types::{
    ActionEntry, EntityTypeEntry, Type, ValidatorActionKind, ValidatorEntityTypeKind,
};

// Whether a text says the type.
#[cycle(whole)]
fn is_whole(ty: &Type) -> bool
    ensures { result ≡ true → type_lacks (type_content ty.now) ≡ [] }
{
    match ty {
        Type::AnyBool | Type::Long | Type::String => true,
        Type::Extension { .. } => true,
        Type::Set { element } => match element {
            Some(element) => is_whole(element.get()),
            None => false,
        },
        Type::Record { attrs, more } => !*more && are_whole(attrs.as_slice()),
        Type::Entity { names } => only_name(names.get()).is_some(),
        Type::Never | Type::True | Type::False | Type::AnyEntity => false,
    }
}

// Whether a text says the types of the attributes.
#[cycle(whole)]
fn are_whole(entries: &[(Text, (Type, bool))]) -> bool
    ensures { result ≡ true → attribute_lacks (attributes_content entries.now) ≡ [] }
{
    for (_, (ty, _)) in entries {
        if !is_whole(ty) {
            return false;
        }
    }
    true
}

// Whether a text says the type of the tags, where there are tags.
fn tags_are_whole(tags: &Option<Boxed<Type>>) -> bool
    ensures { result ≡ true → tag_lacks (option_map type_content tags.now) ≡ [] }
{
    match tags {
        None => true,
        Some(ty) => is_whole(ty.get()),
    }
}

// Whether the type is that of a context, and a text says it.
fn is_whole_context(context: &Type) -> bool
    ensures { result ≡ true → context_lacks (type_content context.now) ≡ [] }
{
    match context {
        Type::Record { attrs, more } => !*more && are_whole(attrs.as_slice()),
        _ => false,
    }
}

// Whether a text says the entity type.
fn is_whole_entity_type(entry: &EntityTypeEntry) -> bool
    ensures { result ≡ true → entity_lacks (entity_content entry.now) ≡ [] }
{
    match &entry.ty.kind {
        ValidatorEntityTypeKind::Standard {
            attributes,
            more,
            tags,
        } => !*more && are_whole(attributes.as_slice()) && tags_are_whole(tags),
        ValidatorEntityTypeKind::Enum(_) | ValidatorEntityTypeKind::External => true,
    }
}

// Whether a text says the action.
fn is_whole_action(entry: &ActionEntry) -> bool
    ensures { result ≡ true → context_lacks (action_content entry.now).context ≡ [] }
{
    match &entry.action.kind {
        ValidatorActionKind::Defined { context, .. } => is_whole_context(context),
        ValidatorActionKind::External => true,
    }
}

// Whether a text says each of the entity types.
fn entity_types_are_whole(entities: &[EntityTypeEntry]) -> bool
    ensures { result ≡ true → All (λ e. entity_lacks (entity_content e) ≡ []) entities.now }
{
    for entry in entities {
        if !is_whole_entity_type(entry) {
            return false;
        }
    }
    true
}

// Whether a text says each of the actions.
fn actions_are_whole(actions: &[ActionEntry]) -> bool
    ensures { result ≡ true → All (λ a. context_lacks (action_content a).context ≡ []) actions.now }
{
    for entry in actions {
        if !is_whole_action(entry) {
            return false;
        }
    }
    true
}

/// Whether a text says each type of a built schema of these entity types and actions.
pub fn is_whole_schema(entities: &[EntityTypeEntry], actions: &[ActionEntry]) -> bool
    ensures { result ≡ true → schema_lacks (content entities.now actions.now) ≡ [] }
{
    entity_types_are_whole(entities) && actions_are_whole(actions)
}
