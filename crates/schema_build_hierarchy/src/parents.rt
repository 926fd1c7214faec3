ghost use Rattle.std.specs.Prelude.{◌≡◌, map, IfOk, IsSome, Some, None, if◌then◌else◌};
ghost use Rattle.std.specs.Option.{option_copied, option_map, option_to_list, is_some};
ghost use Rattle.cedar_identifiers.specs.Names.{components_of};
ghost use Rattle.cedar_identifiers.specs.declared.reference_type.ReferenceType.TheVariants.{Entity};
ghost use Rattle.cedar_names.specs.Definitions.{action_of};
ghost use Rattle.schema_json.specs.Actions.{written_type};
ghost use Rattle.schema_resolve_definitions.specs.Declarations.{name_of};
ghost use Rattle.schema_resolve_definitions.specs.Tests.{tests_of};
ghost use Rattle.schema_resolve_targets.specs.Qualified.{in_namespace, type_in_namespace};
ghost use Rattle.schema_resolve_targets.specs.Targets.{target, is_action, action_target};
ghost use Rattle.schema_resolve_targets.specs.Tried.{own_kind};
ghost use Rattle.schema_build_hierarchy.specs.Entries.{entity_of, action_of_entry};
ghost use Rattle.schema_build_hierarchy.specs.Parents.{entity_parents, action_parents, parents_in, action_parents_in};
ghost use Rattle.schema_build_hierarchy.specs.Parents.{target_in, AreMeantIn, AreParentsMeant};
ghost use Rattle.schema_build_hierarchy.specs.Unreserved.{unreserved_names};

use crate::entries::{ActionEntry, EntityEntry};
use cedar_data::{CloneIn, Text};
use cedar_identifiers::{Eid, InternalName, Name, RawName};
use cedar_names::EntityUID;
use schema_json::action_uid::action_name;
use schema_json::{ActionEntityUID, EntityTypeKind};
use schema_resolve_definitions::declared::name_of;
use schema_resolve_lookup::FragmentDefs;
use std::alloc::{AllocError, Global};

// What the name means as an entity type in the namespace, at the place of the name.
pub(crate) fn entity_target(
    alloc: Global,
    defs: &FragmentDefs<'_>,
    ns: &Option<Name>,
    name: &RawName,
) -> Result<Option<InternalName>, AllocError>
    ensures { IfOk result (λ found. found
        ≡ target (tests_of defs.now) (in_namespace (name_of ns.now) Entity name.now)) }
{
    let ns = name_of(ns);
    if is_own_entity(defs, ns, &name.name) {
        let own = name.name.clone_in(alloc)?;
        return Ok(Some(own.qualify_with(alloc, ns)?));
    }
    if defs.is_defined_as_entity(&name.name) {
        return Ok(Some(name.name.clone_in(alloc)?));
    }
    Ok(None)
}

// Whether an unqualified name is an entity type behind its namespace. No name is built.
fn is_own_entity(defs: &FragmentDefs<'_>, ns: Option<&InternalName>, name: &InternalName) -> bool
    ensures { result ≡ is_some (own_kind (tests_of defs.now) (option_copied ns.entry) Entity name.now) }
{
    match ns {
        Some(ns) => {
            name.others.as_slice().is_empty() && defs.is_defined_as_entity_behind(ns, &name.first)
        }
        None => false,
    }
}

// What the name means that means an entity type. Where it is none behind its namespace it means itself, which is not
// looked up.
fn known_target(
    alloc: Global,
    defs: &FragmentDefs<'_>,
    ns: &Option<Name>,
    name: &RawName,
) -> Result<InternalName, AllocError>
    requires { IsSome (target (tests_of defs.now) (in_namespace (name_of ns.now) Entity name.now)) }
    ensures { IfOk result (λ found. Some found
        ≡ target (tests_of defs.now) (in_namespace (name_of ns.now) Entity name.now)) }
{
    let known = name.name.clone_in(alloc)?;
    let ns = name_of(ns);
    if is_own_entity(defs, ns, &name.name) {
        known.qualify_with(alloc, ns)
    } else {
        Ok(known)
    }
}

// What the parents of the entity type mean, but for names with the component `__cedar`.
pub(crate) fn entity_parents<'f>(
    alloc: Global,
    defs: &FragmentDefs<'_>,
    entry: &EntityEntry<'f>,
) -> Result<Vec<Name>, AllocError>
    requires { AreParentsMeant (tests_of defs.now) (entity_of entry.now) }
    ensures { IfOk result (λ names. map (λ n. components_of n.name) names.items
        ≡ unreserved_names (entity_parents (tests_of defs.now) (entity_of entry.now))) }
{
    match &entry.ty.kind {
        EntityTypeKind::Standard(standard) => {
            let parents = standard.get().member_of_types.as_slice();
            targets_of(alloc, defs, entry.ns, parents)
        }
        EntityTypeKind::Enum { .. } => Ok(Vec::new(alloc)),
    }
}

// What the names mean as entity types, but for those with the component `__cedar`.
fn targets_of(
    alloc: Global,
    defs: &FragmentDefs<'_>,
    ns: &Option<Name>,
    names: &[RawName],
) -> Result<Vec<Name>, AllocError>
    requires { AreMeantIn (tests_of defs.now) ns.now names.now }
    ensures { IfOk result (λ found. map (λ n. components_of n.name) found.items
        ≡ unreserved_names (parents_in (tests_of defs.now) ns.now names.now)) }
{
    let mut found = Vec::with_capacity(alloc, names.len())?;
    for name in names {
        if let Some(target) = unreserved_target(alloc, defs, ns, name)? {
            found.push(target)?;
        }
    }
    Ok(found)
}

// What the name means that means an entity type, where that has no component `__cedar`.
fn unreserved_target(
    alloc: Global,
    defs: &FragmentDefs<'_>,
    ns: &Option<Name>,
    name: &RawName,
) -> Result<Option<Name>, AllocError>
    requires { IsSome (target (tests_of defs.now) (in_namespace (name_of ns.now) Entity name.now)) }
    ensures { IfOk result (λ found. option_to_list (option_map (λ n. components_of n.name) found)
        ≡ unreserved_names (option_to_list (target_in (tests_of defs.now) ns.now Entity name.now))) }
{
    Ok(Name::from_internal(known_target(alloc, defs, ns, name)?))
}

// What the parents of the action mean.
pub(crate) fn action_parents<'f>(
    alloc: Global,
    defs: &FragmentDefs<'_>,
    entry: &ActionEntry<'f>,
) -> Result<Vec<EntityUID>, AllocError>
    ensures { IfOk result (λ uids. map action_of uids.items
        ≡ action_parents (tests_of defs.now) (action_of_entry entry.now)) }
{
    match &entry.ty.member_of {
        Some(uids) => action_targets_of(alloc, defs, entry.ns, uids.as_slice()),
        None => Ok(Vec::new(alloc)),
    }
}

// The actions that the references mean.
fn action_targets_of(
    alloc: Global,
    defs: &FragmentDefs<'_>,
    ns: &Option<Name>,
    uids: &[ActionEntityUID<RawName>],
) -> Result<Vec<EntityUID>, AllocError>
    ensures { IfOk result (λ found. map action_of found.items ≡ action_parents_in (tests_of defs.now) ns.now uids.now) }
{
    let mut found = Vec::new(alloc);
    for uid in uids {
        if let Some(ty) = action_target(alloc, defs, ns, &uid.id, &uid.ty)? {
            let eid = Eid(uid.id.clone_in(alloc)?);
            found.push(EntityUID { ty, eid, loc: None })?;
        }
    }
    Ok(found)
}

// The type of the action that a reference in the namespace means.
fn action_target(
    alloc: Global,
    defs: &FragmentDefs<'_>,
    ns: &Option<Name>,
    id: &Text,
    ty: &Option<RawName>,
) -> Result<Option<Name>, AllocError>
    ensures { IfOk result (λ found. option_map (λ n. n.name) found ≡ action_target (tests_of defs.now) id.now
        (Some (type_in_namespace (name_of ns.now) id.now ty.now))) }
{
    let plain = written(alloc, ty)?;
    let own = plain.clone_in(alloc)?.qualify_with(alloc, name_of(ns))?;
    match as_action(defs, own, id) {
        Some(own) => Ok(Some(own)),
        None => Ok(as_action(defs, plain, id)),
    }
}

// The name as a type, where an action of that type has this id.
fn as_action(defs: &FragmentDefs<'_>, ty: InternalName, id: &Text) -> Option<Name>
    ensures { option_map (λ n. n.name) result ≡ (if is_action (tests_of defs.now) id.now ty then Some ty else None) }
{
    let ty = Name::from_internal(ty)?;
    if defs.is_defined_as_action_named(&ty.name, id) {
        Some(ty)
    } else {
        None
    }
}

// The type as it is written, and `Action` where none is.
fn written(alloc: Global, ty: &Option<RawName>) -> Result<InternalName, AllocError>
    ensures { IfOk result (λ name. name ≡ written_type ty.now) }
{
    match ty {
        Some(ty) => ty.name.clone_in(alloc),
        None => action_name(alloc),
    }
}
