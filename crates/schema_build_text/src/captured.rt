ghost use Rattle.std.specs.Prelude.{◌≡◌, [], IfOk, MatchOption, map};
ghost use Rattle.std.specs.Option.{option_copied, option_map};
ghost use Rattle.cedar_identifiers.specs.Names.{components_of};
ghost use Rattle.cedar_names.specs.CanonicalText.{basename, namespace};
ghost use Rattle.cedar_names.specs.Definitions.{among, same_name};
ghost use Rattle.schema_build_types.specs.Content.{SchemaContent, type_content, attributes_content, names_content};
ghost use Rattle.schema_build_text.specs.Beside.{action_at, is_captured_by};
ghost use Rattle.schema_build_text.specs.Captured.{plain_action, holds_plain_action, some_hold, tags_hold, item_holds};
ghost use Rattle.schema_build_text.specs.Captured.{captured_items, first_item, IsAbout, IsCapturedItem, IsFirstOf};
ghost use Rattle.schema_build_text.specs.Items.{item_content, namespace_behind};
ghost use Rattle.schema_build_text.specs.Walk.{namespace_of, walk};

use crate::items::{Item, name_of};
use crate::names::are_together;
use cedar_data::{Boxed, CloneIn, List, NonEmpty, Text};
use cedar_identifiers::{InternalName, Name, UnreservedId};
use schema_build_errors::{CapturedItem, ReferenceCaptured};
use schema_build_types::{Type, ValidatorActionKind, ValidatorEntityTypeKind};
use std::alloc::{AllocError, Global};

// Whether the name is that of the empty namespace's `Action`.
fn is_plain_action(name: &Name) -> bool
    ensures { result ≡ same_name plain_action (components_of name.now.name) }
{
    if name.name.others.as_slice().is_empty() {
        "Action" == name.name.first.as_str()
    } else {
        false
    }
}

// Whether one of the names is that of the empty namespace's `Action`.
fn names_hold(names: &NonEmpty<Name>) -> bool
    ensures { result ≡ among (names_content names.now) plain_action }
{
    for name in names.iter() {
        if is_plain_action(name) {
            return true;
        }
    }
    false
}

// Whether the type holds the empty namespace's `Action`.
#[cycle(holds)]
fn holds(ty: &Type) -> bool
    ensures { result ≡ holds_plain_action (type_content ty.now) }
{
    match ty {
        Type::Set { element } => match element {
            Some(element) => holds(element.get()),
            None => false,
        },
        Type::Record { attrs, .. } => some_hold(attrs.as_slice()),
        Type::Entity { names } => names_hold(names.get()),
        Type::Never | Type::AnyBool | Type::True | Type::False => false,
        Type::Long | Type::String | Type::AnyEntity => false,
        Type::Extension { .. } => false,
    }
}

// Whether the type of one of the attributes holds it.
#[cycle(holds)]
fn some_hold(entries: &[(Text, (Type, bool))]) -> bool
    ensures { result ≡ some_hold (attributes_content entries.now) }
{
    for (_, (ty, _)) in entries {
        if holds(ty) {
            return true;
        }
    }
    false
}

// Whether the tags hold it.
fn tags_hold(tags: &Option<Boxed<Type>>) -> bool
    ensures { result ≡ tags_hold (option_map type_content tags.now) }
{
    match tags {
        None => false,
        Some(ty) => holds(ty.get()),
    }
}

// Whether an attribute or the tags of the entity type hold it, or the context of the action.
fn item_holds(item: &Item<'_>) -> bool
    ensures { result ≡ item_holds (item_content item.now) }
{
    match item {
        Item::EntityType(_, ty) => match &ty.kind {
            ValidatorEntityTypeKind::Standard {
                attributes,
                tags,
                ..
            } => some_hold(attributes.as_slice()) || tags_hold(tags),
            ValidatorEntityTypeKind::Enum(_) | ValidatorEntityTypeKind::External => false,
        },
        Item::Action(_, action) => match &action.kind {
            ValidatorActionKind::Defined { context, .. } => holds(context),
            ValidatorActionKind::External => false,
        },
    }
}

// The type of the first action of the item and those behind it, of which the first action has the other.
fn first_action<'a>(item: &Item<'a>, behind: Option<&'a InternalName>) -> Option<&'a InternalName>
    ensures { namespace_behind (option_copied result)
        ≡ action_at (item_content item.now) (namespace_behind (option_copied behind.entry)) }
{
    match item {
        Item::EntityType(..) => behind,
        Item::Action(uid, _) => Some(&uid.ty.name),
    }
}

// Whether the item holds it, and is of the action's namespace, which has a name.
fn is_captured(item: &Item<'_>, action: Option<&InternalName>) -> bool
    ensures { result ≡ is_captured_by (namespace_behind (option_copied action.entry)) (item_content item.now) }
{
    let name = name_of(item);
    if name.others.as_slice().is_empty() {
        return false;
    }
    match action {
        None => false,
        Some(action) => item_holds(item) && are_together(name, action),
    }
}

// The first captured item of items in the order of the walk, in which the actions of a namespace stand last.
fn first_captured_item<'a>(items: &'a [Item<'a>]) -> Option<&'a Item<'a>>
    ensures { (c : SchemaContent) → map item_content items.now ≡ walk c → option_map item_content (option_copied result)
        ≡ first_item (captured_items c) }
{
    let mut found = None;
    let mut action = None;
    let mut left = items.len();
    while left > 0 {
        left -= 1;
        let item = &items[left];
        action = first_action(item, action);
        if is_captured(item, action) {
            found = Some(item);
        }
    }
    found
}

// The namespace of a name, where it has one.
fn namespace_name(alloc: Global, name: &Name) -> Result<Option<Name>, AllocError>
    ensures { IfOk result (λ found. MatchOption found (namespace (components_of name.now.name) ≡ [])
        (λ n. components_of n.name ≡ namespace (components_of name.now.name))) }
{
    match name.name.others.as_slice().split_last() {
        None => Ok(None),
        Some((_, front)) => {
            let mut others = List::new(alloc);
            for id in front {
                others.push(id.clone_in(alloc)?)?;
            }
            let first = name.name.first.clone_in(alloc)?;
            let loc = name.name.loc;
            Ok(Some(Name {
                name: InternalName { first, others, loc },
            }))
        }
    }
}

/// The last word of a name.
pub fn last_word(alloc: Global, name: &Name) -> Result<UnreservedId, AllocError>
    ensures { IfOk result (λ word. word.id.text ≡ basename (components_of name.now.name)) }
{
    match name.name.others.as_slice().split_last() {
        None => Ok(UnreservedId {
            id: name.name.first.clone_in(alloc)?,
        }),
        Some((last, _)) => Ok(UnreservedId {
            id: last.clone_in(alloc)?,
        }),
    }
}

// The item by its last word or its id.
fn captured_item(alloc: Global, item: &Item<'_>) -> Result<CapturedItem, AllocError>
    ensures { IfOk result (IsCapturedItem (item_content item.now)) }
{
    match item {
        Item::EntityType(name, _) => Ok(CapturedItem::EntityType(last_word(alloc, name)?)),
        Item::Action(uid, _) => Ok(CapturedItem::Action(uid.eid.0.clone_in(alloc)?)),
    }
}

// The name of the entity type, or the action's type.
fn type_name<'a>(item: &Item<'a>) -> &'a Name
    ensures { namespace_of (item_content item.now) ≡ namespace (components_of result.now.name) }
{
    match item {
        Item::EntityType(name, _) => name,
        Item::Action(uid, _) => &uid.ty,
    }
}

// What is said of the item, where its namespace has a name.
fn capture(alloc: Global, item: &Item<'_>) -> Result<Option<ReferenceCaptured>, AllocError>
    ensures { IfOk result (λ found. MatchOption found (namespace_of (item_content item.now) ≡ [])
        (IsAbout (item_content item.now))) }
{
    match namespace_name(alloc, type_name(item))? {
        None => Ok(None),
        Some(namespace) => {
            let item = captured_item(alloc, item)?;
            Ok(Some(ReferenceCaptured { namespace, item }))
        }
    }
}

/// What is said of the first captured item of items in the order of the walk.
pub fn first_captured_of(
    alloc: Global,
    items: &[Item<'_>],
) -> Result<Option<ReferenceCaptured>, AllocError>
    ensures { IfOk result (λ found. (c : SchemaContent) → map item_content items.now ≡ walk c
        → MatchOption found (captured_items c ≡ []) (IsFirstOf (captured_items c))) }
{
    match first_captured_item(items) {
        None => Ok(None),
        Some(item) => capture(alloc, item),
    }
}
