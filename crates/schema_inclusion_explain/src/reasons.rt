ghost use Rattle.std.specs.Prelude.{◌≡◌, Some, IfOk, [], map};
ghost use Rattle.std.specs.List.{list_any};
ghost use Rattle.std.specs.List.Sorted.{IsStrictlySortedBy};
ghost use Rattle.std.specs.Map.{keys_of};
ghost use Rattle.std.specs.Option.{option_copied, option_map};
ghost use Rattle.cedar_identifiers.specs.Names.{components_of};
ghost use Rattle.cedar_names.specs.Definitions.{same_name, action_of};
ghost use Rattle.cedar_names.specs.Orders.{names_in_order, uids_in_order};
ghost use Rattle.schema_inclusion_values.specs.Admits.{an_entity, a_request, an_action};
ghost use Rattle.schema_inclusion_values.specs.Lost.{same_key};
ghost use Rattle.schema_inclusion_values.specs.Seen.{entries_value, parents_value, schema_value};
ghost use Rattle.schema_inclusion_types.specs.Kinds.{plain};
ghost use Rattle.schema_inclusion_check.specs.Parts.{entity_meaning, action_meaning};
ghost use Rattle.schema_inclusion_check.specs.Raw.{raw_names, raw_entity, raw_action, raw_meaning};
ghost use Rattle.schema_inclusion_reasons.specs.Reasons.{in_attributes, in_tags, in_context};
ghost use Rattle.schema_inclusion_reasons.specs.FirstReason.{tags_reason, parent_reason, parents_reason};
ghost use Rattle.schema_inclusion_reasons.specs.FirstReason.{entity_reason, entity_reason_by, request_reason};
ghost use Rattle.schema_inclusion_reasons.specs.FirstReason.{request_reason_by, first_reason};
ghost use Rattle.schema_inclusion_explain.specs.Held.{outwards, held_found};
ghost use Rattle.schema_inclusion_explain.specs.HeldReasons.{held_path, held_reason, entity_held, request_held};

use crate::kinds::{has_id, takes};
use crate::misfits::{attributes_misfit, tags_misfit};
use crate::places::{Cause, Found, Step};
use crate::seek::{find_action, find_entity};
use cedar_data::{CloneIn, List, Shared, Text};
use cedar_identifiers::Name;
use cedar_names::EntityUID;
use schema_build_types::{ActionEntry, EntityTypeEntry, Type};
use schema_inclusion_check::Lent;
use schema_inclusion_check::parts::{ActionParts, EntityParts, action_parts, entity_parts};
use schema_inclusion_types::{same_name, same_text};
use schema_inclusion_values::{SchemaValue, Val};
use std::alloc::{AllocError, Global};

/// Why a schema does not admit a value. Paths go from the outermost step to the innermost.
#[derive(Drop)]
pub enum Reason {
    /// The schema has no entity type of this name of its own.
    TypeGone(Name),
    /// The entity type, an enum, has no such choice.
    ChoiceGone(Text),
    /// A value among the attributes does not fit.
    InAttributes(List<Step>, Cause),
    /// The entity type has no tags.
    TagsGone,
    /// A tag does not fit. The first step is to the tag.
    InTags(List<Step>, Cause),
    /// The parent at this place is of a type that is no ancestor.
    ParentTypeGone(usize, Name),
    /// The parent at this place has an id that its type has not.
    ParentGone(usize, Name, Text),
    /// The schema has no such action of its own.
    ActionGone(EntityUID),
    /// The action does not apply to principals of this type.
    PrincipalGone(Name),
    /// The action does not apply to resources of this type.
    ResourceGone(Name),
    /// A value in the context does not fit.
    InContext(List<Step>, Cause),
    /// The action does not stand below this one.
    AncestorGone(EntityUID),
}

// The steps from the outermost on, of steps from the innermost on.
fn path(alloc: Global, mut steps: Vec<Step>) -> Result<List<Step>, AllocError>
    ensures { IfOk result (λ p. held_path p ≡ outwards steps.items []) }
{
    let mut path = List::new(alloc);
    while let Some(step) = steps.pop() {
        path.push(step)?;
    }
    Ok(path)
}

// Whether the name is one of these.
fn has_name(names: &[Name], name: &Name) -> bool
    ensures { result ≡ list_any (same_name (components_of name.now.name)) (raw_names names.now) }
{
    for other in names {
        if same_name(name, other) {
            return true;
        }
    }
    false
}

// Whether the name is one of these ancestors.
fn has_ancestor(ancestors: &[Shared<Name>], name: &Name) -> bool
    ensures { result ≡ list_any (same_name (components_of name.now.name)) (raw_names ancestors.now) }
{
    for other in ancestors {
        if same_name(name, other.get()) {
            return true;
        }
    }
    false
}

// The reason that the place in the attributes is.
fn in_attributes(alloc: Global, found: Found) -> Result<Option<Reason>, AllocError>
    ensures { IfOk result (λ r. option_map held_reason r
        ≡ Some (in_attributes (held_found found).0 (held_found found).1)) }
{
    let Found { steps, cause } = found;
    Ok(Some(Reason::InAttributes(path(alloc, steps)?, cause)))
}

// The reason that the place in the tags is.
fn in_tags(alloc: Global, found: Found) -> Result<Option<Reason>, AllocError>
    ensures { IfOk result (λ r. option_map held_reason r
        ≡ Some (in_tags (held_found found).0 (held_found found).1)) }
{
    let Found { steps, cause } = found;
    Ok(Some(Reason::InTags(path(alloc, steps)?, cause)))
}

// The reason that the place in the context is.
fn in_context(alloc: Global, found: Found) -> Result<Option<Reason>, AllocError>
    ensures { IfOk result (λ r. option_map held_reason r
        ≡ Some (in_context (held_found found).0 (held_found found).1)) }
{
    let Found { steps, cause } = found;
    Ok(Some(Reason::InContext(path(alloc, steps)?, cause)))
}

// Why the tags do not fit, if they do not.
fn tags_reason(
    alloc: Global,
    schema: &Lent<'_>,
    own: Option<&Type>,
    tags: &[(Text, Val)],
) -> Result<Option<Reason>, AllocError>
    requires entities { IsStrictlySortedBy (λ a b. names_in_order a.name b.name) (keys_of schema.now.entities.now) }
    requires actions { IsStrictlySortedBy uids_in_order (keys_of schema.now.actions.now) }
    ensures { IfOk result (λ r. option_map held_reason r
        ≡ tags_reason (raw_meaning schema.now.entities.now schema.now.actions.now)
        (option_map plain (option_copied own.entry)) (entries_value tags.now)) }
{
    match own {
        None => {
            if tags.is_empty() {
                Ok(None)
            } else {
                Ok(Some(Reason::TagsGone))
            }
        }
        Some(ty) => match tags_misfit(alloc, schema, ty, tags)? {
            None => Ok(None),
            Some(found) => in_tags(alloc, found),
        },
    }
}

// Why the parent at the place is none, if it is none.
fn parent_reason(
    alloc: Global,
    schema: &Lent<'_>,
    ancestors: &[Shared<Name>],
    at: usize,
    ty: &Name,
    id: &Text,
) -> Result<Option<Reason>, AllocError>
    requires entities { IsStrictlySortedBy (λ a b. names_in_order a.name b.name) (keys_of schema.now.entities.now) }
    requires actions { IsStrictlySortedBy uids_in_order (keys_of schema.now.actions.now) }
    ensures { IfOk result (λ r. option_map held_reason r
        ≡ parent_reason (raw_meaning schema.now.entities.now schema.now.actions.now) (raw_names ancestors.now) at
        (components_of ty.now.name, id.now)) }
{
    if !has_ancestor(ancestors, ty) {
        return Ok(Some(Reason::ParentTypeGone(at, ty.clone_in(alloc)?)));
    }
    if has_id(alloc, schema, ty, id)? {
        return Ok(None);
    }
    Ok(Some(Reason::ParentGone(at, ty.clone_in(alloc)?, id.clone_in(alloc)?)))
}

// Why the first of the parents that is none is none, if one is none.
fn parents_reason(
    alloc: Global,
    schema: &Lent<'_>,
    ancestors: &[Shared<Name>],
    parents: &[(Name, Text)],
) -> Result<Option<Reason>, AllocError>
    requires entities { IsStrictlySortedBy (λ a b. names_in_order a.name b.name) (keys_of schema.now.entities.now) }
    requires actions { IsStrictlySortedBy uids_in_order (keys_of schema.now.actions.now) }
    ensures { IfOk result (λ r. option_map held_reason r
        ≡ parents_reason (raw_meaning schema.now.entities.now schema.now.actions.now) (raw_names ancestors.now) 0
        (parents_value parents.now)) }
{
    let mut at = 0;
    for (ty, id) in parents {
        if let Some(reason) = parent_reason(alloc, schema, ancestors, at, ty, id)? {
            return Ok(Some(reason));
        }
        at += 1;
    }
    Ok(None)
}

// Why an entity of the type does not fit, if it does not.
fn entity_reason(
    alloc: Global,
    schema: &Lent<'_>,
    own: &EntityParts<'_>,
    ty: &Name,
    id: &Text,
    attrs: &[(Text, Val)],
    tags: &[(Text, Val)],
    parents: &[(Name, Text)],
) -> Result<Option<Reason>, AllocError>
    requires entities { IsStrictlySortedBy (λ a b. names_in_order a.name b.name) (keys_of schema.now.entities.now) }
    requires actions { IsStrictlySortedBy uids_in_order (keys_of schema.now.actions.now) }
    ensures { IfOk result (λ r. option_map held_reason r
        ≡ entity_reason (raw_meaning schema.now.entities.now schema.now.actions.now) (entity_meaning own.now)
        (entity_held ty.now id.now attrs.now tags.now parents.now)) }
{
    if !takes(own.choices, id) {
        return Ok(Some(Reason::ChoiceGone(id.clone_in(alloc)?)));
    }
    if let Some(found) = attributes_misfit(alloc, schema, own.attributes, attrs)? {
        return in_attributes(alloc, found);
    }
    if let Some(reason) = tags_reason(alloc, schema, own.tags, tags)? {
        return Ok(Some(reason));
    }
    parents_reason(alloc, schema, own.ancestors, parents)
}

// Why a request of the action does not fit, if it does not.
fn request_reason(
    alloc: Global,
    schema: &Lent<'_>,
    own: &ActionParts<'_>,
    action: &EntityUID,
    principal: &Name,
    resource: &Name,
    context: &[(Text, Val)],
) -> Result<Option<Reason>, AllocError>
    requires entities { IsStrictlySortedBy (λ a b. names_in_order a.name b.name) (keys_of schema.now.entities.now) }
    requires actions { IsStrictlySortedBy uids_in_order (keys_of schema.now.actions.now) }
    ensures { IfOk result (λ r. option_map held_reason r
        ≡ request_reason (raw_meaning schema.now.entities.now schema.now.actions.now) (action_meaning own.now)
        (request_held action.now principal.now resource.now context.now)) }
{
    if !has_name(own.principals, principal) {
        return Ok(Some(Reason::PrincipalGone(principal.clone_in(alloc)?)));
    }
    if !has_name(own.resources, resource) {
        return Ok(Some(Reason::ResourceGone(resource.clone_in(alloc)?)));
    }
    match attributes_misfit(alloc, schema, own.context, context)? {
        None => Ok(None),
        Some(found) => in_context(alloc, found),
    }
}

// Why an entity does not fit the entity type, which may be another schema's, if it does not.
fn declared_entity(
    alloc: Global,
    schema: &Lent<'_>,
    entry: &EntityTypeEntry,
    ty: &Name,
    id: &Text,
    attrs: &[(Text, Val)],
    tags: &[(Text, Val)],
    parents: &[(Name, Text)],
) -> Result<Option<Reason>, AllocError>
    requires entities { IsStrictlySortedBy (λ a b. names_in_order a.name b.name) (keys_of schema.now.entities.now) }
    requires actions { IsStrictlySortedBy uids_in_order (keys_of schema.now.actions.now) }
    ensures { IfOk result (λ r. option_map held_reason r
        ≡ entity_reason_by (raw_meaning schema.now.entities.now schema.now.actions.now) (Some (raw_entity entry.now))
        (entity_held ty.now id.now attrs.now tags.now parents.now)) }
{
    let own = entity_parts(entry);
    if own.is_external {
        return Ok(Some(Reason::TypeGone(ty.clone_in(alloc)?)));
    }
    entity_reason(alloc, schema, &own, ty, id, attrs, tags, parents)
}

// Why the schema does not admit the entity, if it does not.
fn any_entity(
    alloc: Global,
    schema: &Lent<'_>,
    ty: &Name,
    id: &Text,
    attrs: &[(Text, Val)],
    tags: &[(Text, Val)],
    parents: &[(Name, Text)],
) -> Result<Option<Reason>, AllocError>
    requires entities { IsStrictlySortedBy (λ a b. names_in_order a.name b.name) (keys_of schema.now.entities.now) }
    requires actions { IsStrictlySortedBy uids_in_order (keys_of schema.now.actions.now) }
    ensures { IfOk result (λ r. option_map held_reason r
        ≡ first_reason (raw_meaning schema.now.entities.now schema.now.actions.now)
        (an_entity (entity_held ty.now id.now attrs.now tags.now parents.now))) }
{
    match find_entity(schema.entities, ty) {
        None => Ok(Some(Reason::TypeGone(ty.clone_in(alloc)?))),
        Some(entry) => declared_entity(alloc, schema, entry, ty, id, attrs, tags, parents),
    }
}

// Why a request does not fit the action, which may be another schema's, if it does not.
fn declared_request(
    alloc: Global,
    schema: &Lent<'_>,
    entry: &ActionEntry,
    action: &EntityUID,
    principal: &Name,
    resource: &Name,
    context: &[(Text, Val)],
) -> Result<Option<Reason>, AllocError>
    requires entities { IsStrictlySortedBy (λ a b. names_in_order a.name b.name) (keys_of schema.now.entities.now) }
    requires actions { IsStrictlySortedBy uids_in_order (keys_of schema.now.actions.now) }
    ensures { IfOk result (λ r. option_map held_reason r
        ≡ request_reason_by (raw_meaning schema.now.entities.now schema.now.actions.now) (Some (raw_action entry.now))
        (request_held action.now principal.now resource.now context.now)) }
{
    let own = action_parts(entry);
    if own.is_external {
        return Ok(Some(Reason::ActionGone(action.clone_in(alloc)?)));
    }
    request_reason(alloc, schema, &own, action, principal, resource, context)
}

// Why the schema does not admit the request, if it does not.
fn any_request(
    alloc: Global,
    schema: &Lent<'_>,
    action: &EntityUID,
    principal: &Name,
    resource: &Name,
    context: &[(Text, Val)],
) -> Result<Option<Reason>, AllocError>
    requires entities { IsStrictlySortedBy (λ a b. names_in_order a.name b.name) (keys_of schema.now.entities.now) }
    requires actions { IsStrictlySortedBy uids_in_order (keys_of schema.now.actions.now) }
    ensures { IfOk result (λ r. option_map held_reason r
        ≡ first_reason (raw_meaning schema.now.entities.now schema.now.actions.now)
        (a_request (request_held action.now principal.now resource.now context.now))) }
{
    match find_action(schema.actions, action) {
        None => Ok(Some(Reason::ActionGone(action.clone_in(alloc)?))),
        Some(entry) => declared_request(alloc, schema, entry, action, principal, resource, context),
    }
}

// Whether the action is one of these.
fn has_action(actions: &[Shared<EntityUID>], action: &EntityUID) -> bool
    ensures { result ≡ list_any (same_key (action_of action.now)) (map action_of actions.now) }
{
    for other in actions {
        let other = other.get();
        if same_name(&action.ty, &other.ty) && same_text(&action.eid.0, &other.eid.0) {
            return true;
        }
    }
    false
}

// Why the schema does not admit the action with one that is above it, if it does not.
fn any_action(
    alloc: Global,
    schema: &Lent<'_>,
    action: &EntityUID,
    ancestor: &EntityUID,
) -> Result<Option<Reason>, AllocError>
    requires { IsStrictlySortedBy uids_in_order (keys_of schema.now.actions.now) }
    ensures { IfOk result (λ r. option_map held_reason r
        ≡ first_reason (raw_meaning schema.now.entities.now schema.now.actions.now)
        (an_action (record { action = action_of action.now; ancestor = action_of ancestor.now }))) }
{
    match find_action(schema.actions, action) {
        None => Ok(Some(Reason::ActionGone(action.clone_in(alloc)?))),
        Some(entry) => {
            if has_action(action_parts(entry).ancestors, ancestor) {
                Ok(None)
            } else {
                Ok(Some(Reason::AncestorGone(ancestor.clone_in(alloc)?)))
            }
        }
    }
}

/// Why the schema, by its lists as they stand, does not admit the value, if it does not: the first reason.
pub fn reason_between(
    alloc: Global,
    schema: &Lent<'_>,
    value: &SchemaValue,
) -> Result<Option<Reason>, AllocError>
    requires entities { IsStrictlySortedBy (λ a b. names_in_order a.name b.name) (keys_of schema.now.entities.now) }
    requires actions { IsStrictlySortedBy uids_in_order (keys_of schema.now.actions.now) }
    ensures { IfOk result (λ r. option_map held_reason r
        ≡ first_reason (raw_meaning schema.now.entities.now schema.now.actions.now) (schema_value value.now)) }
{
    match value {
        SchemaValue::Entity {
            ty,
            id,
            attrs,
            tags,
            parents,
        } => any_entity(
            alloc,
            schema,
            ty,
            id,
            attrs.as_slice(),
            tags.as_slice(),
            parents.as_slice(),
        ),
        SchemaValue::Request {
            action,
            principal,
            resource,
            context,
        } => any_request(
            alloc,
            schema,
            action,
            principal,
            resource,
            context.as_slice(),
        ),
        SchemaValue::ActionIn { action, ancestor } => any_action(alloc, schema, action, ancestor),
    }
}
