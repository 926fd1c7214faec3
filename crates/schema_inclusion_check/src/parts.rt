ghost use Rattle.std.specs.Prelude.{◌≡◌};
ghost use Rattle.std.specs.Option.{option_copied};
ghost use Rattle.schema_build_types.specs.Content.{type_content};
ghost use Rattle.schema_build_text.specs.Readings.{context_attributes};
ghost use Rattle.schema_inclusion_types.specs.Kinds.{AreSorted, plain_attrs};
ghost use Rattle.schema_inclusion_check.specs.Raw.{raw_entity, raw_action};
ghost use Rattle.schema_inclusion_check.specs.Parts.{entity_meaning, action_meaning};

use cedar_data::{Boxed, NonEmpty, Shared, Text};
use cedar_identifiers::{Eid, Name};
use cedar_names::EntityUID;
use schema_build_types::{
    ActionEntry, EntityTypeEntry, Type, ValidatorActionKind, ValidatorEntityTypeKind,
};

/// What is declared of an entity type, lent.
#[derive(Clone, Copy)]
pub struct EntityParts<'a> {
    pub name: &'a Name,
    pub is_external: bool,
    pub ancestors: &'a [Shared<Name>],
    pub attributes: &'a [(Text, (Type, bool))],
    pub tags: Option<&'a Type>,
    pub choices: Option<&'a NonEmpty<Eid>>,
}

/// What is declared of an action, lent.
#[derive(Clone, Copy)]
pub struct ActionParts<'a> {
    pub uid: &'a EntityUID,
    pub is_external: bool,
    pub ancestors: &'a [Shared<EntityUID>],
    pub principals: &'a [Name],
    pub resources: &'a [Name],
    pub context: &'a [(Text, (Type, bool))],
}

/// What is declared of the entity type.
pub fn entity_parts(entry: &EntityTypeEntry) -> EntityParts<'_>
    ensures says { entity_meaning result ≡ raw_entity entry.now }
    ensures sorted { AreSorted result.attributes.now }
{
    let name = &entry.name;
    let ancestors = entry.ty.ancestors.as_slice();
    match &entry.ty.kind {
        ValidatorEntityTypeKind::Standard {
            attributes,
            tags,
            ..
        } => EntityParts {
            name,
            is_external: false,
            ancestors,
            attributes: attributes.as_slice(),
            tags: tags_of(tags),
            choices: None,
        },
        ValidatorEntityTypeKind::Enum(choices) => EntityParts {
            name,
            is_external: false,
            ancestors,
            attributes: &[],
            tags: None,
            choices: Some(choices),
        },
        ValidatorEntityTypeKind::External => EntityParts {
            name,
            is_external: true,
            ancestors,
            attributes: &[],
            tags: None,
            choices: None,
        },
    }
}

// The type of the tags, where there are tags.
fn tags_of(tags: &Option<Boxed<Type>>) -> Option<&Type>
    ensures { option_copied result ≡ tags.now }
{
    match tags {
        Some(ty) => Some(ty.get()),
        None => None,
    }
}

// The attributes of a context; one that is no record has none.
fn context_attributes(context: &Type) -> &[(Text, (Type, bool))]
    ensures says { plain_attrs result.now ≡ context_attributes (type_content context.now) }
    ensures sorted { AreSorted result.now }
{
    match context {
        Type::Record { attrs, .. } => attrs.as_slice(),
        Type::Never | Type::AnyBool | Type::True | Type::False => &[],
        Type::Long | Type::String | Type::Set { .. } => &[],
        Type::Entity { .. } | Type::AnyEntity | Type::Extension { .. } => &[],
    }
}

/// What is declared of the action.
pub fn action_parts(entry: &ActionEntry) -> ActionParts<'_>
    ensures says { action_meaning result ≡ raw_action entry.now }
    ensures sorted { AreSorted result.context.now }
{
    let uid = &entry.uid;
    let ancestors = entry.action.ancestors.as_slice();
    match &entry.action.kind {
        ValidatorActionKind::Defined {
            principals,
            resources,
            context,
        } => ActionParts {
            uid,
            is_external: false,
            ancestors,
            principals: principals.as_slice(),
            resources: resources.as_slice(),
            context: context_attributes(context),
        },
        ValidatorActionKind::External => ActionParts {
            uid,
            is_external: true,
            ancestors,
            principals: &[],
            resources: &[],
            context: &[],
        },
    }
}
