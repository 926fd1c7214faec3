ghost use Rattle.std.specs.Prelude.{◌≡◌, Some, IfOk, IfSome, map};
ghost use Rattle.std.specs.Option.{option_copied, option_map};
ghost use Rattle.cedar_identifiers.specs.Names.{components_of};
ghost use Rattle.cedar_names.specs.Definitions.{same_name, action_of};
ghost use Rattle.cedar_names.specs.Meaning.{SchemaMeaning};
ghost use Rattle.schema_inclusion_values.specs.Admits.{a_request, an_action};
ghost use Rattle.schema_inclusion_values.specs.Lost.{lost_member, same_key, request_with, some_context};
ghost use Rattle.schema_inclusion_values.specs.Lost.{lost_request_of};
ghost use Rattle.schema_inclusion_values.specs.Lost.{lost_request_between, lost_request_to, ancestors_of};
ghost use Rattle.schema_inclusion_values.specs.Seen.{entries_value, schema_value};
ghost use Rattle.schema_inclusion_values.specs.Whole.{action_name};
ghost use Rattle.schema_inclusion_types.specs.Kinds.{AreSorted};
ghost use Rattle.schema_inclusion_check.specs.Parts.{action_meaning};
ghost use Rattle.schema_inclusion_check.specs.Raw.{raw_names};
ghost use Rattle.schema_inclusion_check.specs.Told.{IsTold};

use crate::missing::first_missing;
use crate::parts::ActionParts;
use cedar_data::{CloneIn, List, Shared, Text};
use cedar_identifiers::Name;
use cedar_names::EntityUID;
use schema_inclusion_types::{Ids, lost_record, some_entries};
use schema_inclusion_values::{SchemaValue, Val};
use std::alloc::{AllocError, Global};

// The request of these parts.
fn request(
    alloc: Global,
    old: &ActionParts<'_>,
    principal: &Name,
    resource: &Name,
    context: List<(Text, Val)>,
) -> Result<SchemaValue, AllocError>
    ensures { IfOk result (λ x. (m n : SchemaMeaning) → schema_value x ≡ a_request (request_with m n
        (action_meaning old.now) (components_of principal.now.name) (components_of resource.now.name)
        (entries_value context))) }
{
    Ok(SchemaValue::Request {
        action: old.uid.clone_in(alloc)?,
        principal: principal.clone_in(alloc)?,
        resource: resource.clone_in(alloc)?,
        context,
    })
}

// The request with the required attributes of the context alone.
fn plain_request(
    alloc: Global,
    ids: &Ids,
    old: &ActionParts<'_>,
    principal: &Name,
    resource: &Name,
) -> Result<SchemaValue, AllocError>
    ensures { IfOk result (λ x. (m n : SchemaMeaning) → IsTold ids.now.rows m n → schema_value x
        ≡ a_request (request_with m n (action_meaning old.now) (components_of principal.now.name)
        (components_of resource.now.name) (some_context m n (action_meaning old.now)))) }
{
    let context = some_entries(alloc, ids, old.context)?;
    request(alloc, old, principal, resource, context)
}

// The first of the old names that is none of the new ones.
fn missing_name<'a>(old: &'a [Name], new: &[Name]) -> Option<&'a Name>
    ensures { option_map (λ n. components_of n.name) (option_copied result)
        ≡ lost_member same_name (raw_names old.now) (raw_names new.now) }
{
    first_missing(old, new)
}

// The first of the old actions that is none of the new ones.
fn missing_action<'a>(
    old: &'a [Shared<EntityUID>],
    new: &[Shared<EntityUID>],
) -> Option<&'a Shared<EntityUID>>
    ensures { option_map action_of (option_copied result)
        ≡ lost_member same_key (map action_of old.now) (map action_of new.now) }
{
    first_missing(old, new)
}

// A request of the old action that the new action of its name does not admit.
fn lost_between(
    alloc: Global,
    ids: &Ids,
    old: &ActionParts<'_>,
    new: &ActionParts<'_>,
    principal: &Name,
    resource: &Name,
) -> Result<Option<SchemaValue>, AllocError>
    requires old_sorted { AreSorted old.now.context.now }
    requires new_sorted { AreSorted new.now.context.now }
    ensures { IfOk result (λ found. (m n : SchemaMeaning) → IsTold ids.now.rows m n → option_map schema_value found
        ≡ option_map a_request (lost_request_between m n (action_meaning old.now) (action_meaning new.now)
        (components_of principal.now.name) (components_of resource.now.name))) }
{
    if let Some(name) = missing_name(old.principals, new.principals) {
        return Ok(Some(plain_request(alloc, ids, old, name, resource)?));
    }
    if let Some(name) = missing_name(old.resources, new.resources) {
        return Ok(Some(plain_request(alloc, ids, old, principal, name)?));
    }
    match lost_record(alloc, ids, old.context, new.context)? {
        None => Ok(None),
        Some(context) => Ok(Some(request(alloc, old, principal, resource, context)?)),
    }
}

// The request with the required attributes of the context alone, as what is found.
fn first_request(
    alloc: Global,
    ids: &Ids,
    old: &ActionParts<'_>,
    principal: &Name,
    resource: &Name,
) -> Result<Option<SchemaValue>, AllocError>
    ensures { IfOk result (λ found. (m n : SchemaMeaning) → IsTold ids.now.rows m n → option_map schema_value found
        ≡ Some (a_request (request_with m n (action_meaning old.now) (components_of principal.now.name)
        (components_of resource.now.name) (some_context m n (action_meaning old.now))))) }
{
    Ok(Some(plain_request(alloc, ids, old, principal, resource)?))
}

// A request of the old action that the new schema does not admit, whose action of that name may be another schema's.
fn lost_to_declared(
    alloc: Global,
    ids: &Ids,
    old: &ActionParts<'_>,
    new: &ActionParts<'_>,
    principal: &Name,
    resource: &Name,
) -> Result<Option<SchemaValue>, AllocError>
    requires old_sorted { AreSorted old.now.context.now }
    requires new_sorted { AreSorted new.now.context.now }
    ensures { IfOk result (λ found. (m n : SchemaMeaning) → IsTold ids.now.rows m n → option_map schema_value found
        ≡ option_map a_request (lost_request_to m n (action_meaning old.now) (components_of principal.now.name)
        (components_of resource.now.name) (Some (action_meaning new.now)))) }
{
    if new.is_external {
        first_request(alloc, ids, old, principal, resource)
    } else {
        lost_between(alloc, ids, old, new, principal, resource)
    }
}

// A request of the old action that the new schema does not admit, by its action of that name.
fn lost_to(
    alloc: Global,
    ids: &Ids,
    old: &ActionParts<'_>,
    new: Option<&ActionParts<'_>>,
    principal: &Name,
    resource: &Name,
) -> Result<Option<SchemaValue>, AllocError>
    requires old_sorted { AreSorted old.now.context.now }
    requires new_sorted { IfSome (option_copied new) (λ p. AreSorted p.context.now) }
    ensures { IfOk result (λ found. (m n : SchemaMeaning) → IsTold ids.now.rows m n → option_map schema_value found
        ≡ option_map a_request (lost_request_to m n (action_meaning old.now) (components_of principal.now.name)
        (components_of resource.now.name) (option_map action_meaning (option_copied new.entry)))) }
{
    match new {
        None => first_request(alloc, ids, old, principal, resource),
        Some(new) => lost_to_declared(alloc, ids, old, new, principal, resource),
    }
}

/// A request of the old action that the new schema does not admit, by its action of that name.
pub fn lost_request_to(
    alloc: Global,
    ids: &Ids,
    old: &ActionParts<'_>,
    new: Option<&ActionParts<'_>>,
) -> Result<Option<SchemaValue>, AllocError>
    requires old_sorted { AreSorted old.now.context.now }
    requires new_sorted { IfSome (option_copied new) (λ p. AreSorted p.context.now) }
    ensures { IfOk result (λ found. (m n : SchemaMeaning) → IsTold ids.now.rows m n → option_map schema_value found
        ≡ option_map a_request (lost_request_of m n (action_meaning old.now)
        (option_map action_meaning (option_copied new.entry)) (raw_names old.now.principals.now)
        (raw_names old.now.resources.now))) }
{
    match old.principals.first() {
        None => Ok(None),
        Some(principal) => match old.resources.first() {
            None => Ok(None),
            Some(resource) => lost_to(alloc, ids, old, new, principal, resource),
        },
    }
}

// The actions above the action, where there is one.
fn ancestors_of<'a>(action: Option<&'a ActionParts<'a>>) -> &'a [Shared<EntityUID>]
    ensures { (m n : SchemaMeaning) → map action_of result.now
        ≡ ancestors_of m n (option_map action_meaning (option_copied action.entry)) }
{
    match action {
        Some(action) => action.ancestors,
        None => &[],
    }
}

/// The old action with one that it stands below and the new action does not.
pub fn lost_action_to(
    alloc: Global,
    old: &ActionParts<'_>,
    new: Option<&ActionParts<'_>>,
) -> Result<Option<SchemaValue>, AllocError>
    ensures { IfOk result (λ found. (m n : SchemaMeaning) → option_map schema_value found
        ≡ option_map an_action (option_map (λ b. record { action = action_name (action_meaning old.now); ancestor = b })
        (lost_member same_key (action_meaning old.now).ancestors
        (ancestors_of m n (option_map action_meaning (option_copied new.entry)))))) }
{
    match missing_action(old.ancestors, ancestors_of(new)) {
        None => Ok(None),
        Some(ancestor) => Ok(Some(SchemaValue::ActionIn {
            action: old.uid.clone_in(alloc)?,
            ancestor: ancestor.get().clone_in(alloc)?,
        })),
    }
}
