ghost use Rattle.std.specs.Prelude.{◌≡◌, OnOk, IfOk, map};
ghost use Rattle.cedar_identifiers.specs.Names.{components_of};
ghost use Rattle.cedar_names.specs.CanonicalText.{namespace};
ghost use Rattle.schema_build_types.specs.Content.{content};
ghost use Rattle.schema_build_text.specs.Adds.{Adds};
ghost use Rattle.schema_build_text.specs.Items.{item_content, item_front};
ghost use Rattle.schema_build_text.specs.Walk.{namespace_of, items_of, walk};

use crate::actions::push_action;
use crate::entity_types::push_entity_type;
use crate::names::compare_namespaces;
use cedar_identifiers::{InternalName, Name};
use cedar_names::EntityUID;
use schema_build_types::{ActionEntry, EntityTypeEntry, ValidatorActionId, ValidatorEntityType};
use std::alloc::{AllocError, Global};

/// An entity type or an action of a built schema, lent.
#[derive(Clone, Copy)]
pub enum Item<'a> {
    EntityType(&'a Name, &'a ValidatorEntityType),
    Action(&'a EntityUID, &'a ValidatorActionId),
}

/// The name of the entity type, or of the action's type.
pub fn name_of<'a>(item: &Item<'a>) -> &'a InternalName
    ensures { namespace_of (item_content item.now) ≡ namespace (components_of result.now) }
{
    match item {
        Item::EntityType(name, _) => &name.name,
        Item::Action(uid, _) => &uid.ty.name,
    }
}

// The entity types, then the actions.
fn lend_items<'a>(
    alloc: Global,
    entities: &'a [EntityTypeEntry],
    actions: &'a [ActionEntry],
) -> Result<Vec<Item<'a>>, AllocError>
    ensures { IfOk result (λ items. map item_content items.items ≡ items_of (content entities.now actions.now)) }
{
    let mut items = Vec::with_capacity(alloc, entities.len())?;
    for entity in entities {
        items.push(Item::EntityType(&entity.name, &entity.ty))?;
    }
    for action in actions {
        items.push(Item::Action(&action.uid, &action.action))?;
    }
    Ok(items)
}

/// The items in the order of the walk: by namespace, and in each the entity types, then the actions.
pub fn items_in_order<'a>(
    alloc: Global,
    entities: &'a [EntityTypeEntry],
    actions: &'a [ActionEntry],
) -> Result<Vec<Item<'a>>, AllocError>
    ensures { IfOk result (λ items. map item_content items.items ≡ walk (content entities.now actions.now)) }
{
    let mut items = lend_items(alloc, entities, actions)?;
    items.sort_by(|a, b| compare_namespaces(name_of(a), name_of(b)))?;
    Ok(items)
}

/// Adds the item on lines of its own, up to its semicolon.
pub fn push_item(
    text: &mut String,
    alloc: Global,
    base: usize,
    item: &Item<'_>,
) -> Result<(), AllocError>
    ensures { OnOk result (Adds text.old text.new (item_front base (item_content item.now))) }
{
    match item {
        Item::EntityType(name, ty) => push_entity_type(text, alloc, base, name, ty),
        Item::Action(uid, action) => push_action(text, alloc, base, uid, action),
    }
}
