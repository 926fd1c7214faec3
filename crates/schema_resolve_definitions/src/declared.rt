ghost use Rattle.std.specs.Prelude.{◌≡◌, ◌++◌, map, IfOk, OnOk};
ghost use Rattle.std.specs.Option.{option_copied};
ghost use Rattle.cedar_identifiers.specs.Names.{components_of};
ghost use Rattle.cedar_names.specs.Definitions.{action_of};
ghost use Rattle.schema_resolve_definitions.specs.Declarations.{name_of, alone, declared_name, action_type, commons_in};
ghost use Rattle.schema_resolve_definitions.specs.Declarations.{entities_in, actions_in, declared};
ghost use Rattle.schema_resolve_definitions.specs.Tests.{tests_of};

use cedar_data::{CloneIn, List, Text};
use cedar_identifiers::{Eid, Id, InternalName, Name, RawName, UnreservedId};
use cedar_names::{AllDefs, EntityUID};
use schema_json::action_uid::action_name;
use schema_json::{
    ActionType, CommonType, CommonTypeId, EntityType, Fragment, NamespaceDefinition,
};
use std::alloc::{AllocError, Global};

/// What the fragment declares and nothing else: its common types, its entity types and its actions, each name with its
/// namespace in front.
pub fn single_fragment(alloc: Global, fragment: &Fragment<RawName>) -> Result<AllDefs, AllocError>
    ensures { IfOk result (λ defs. tests_of defs ≡ tests_of (declared fragment.now)) }
{
    let mut names = DeclaredNames {
        commons: Vec::new(alloc),
        entities: Vec::new(alloc),
        actions: Vec::new(alloc),
    };
    for (ns, definition) in fragment.0.as_slice() {
        push_namespace(alloc, &mut names, ns, definition)?;
    }
    let DeclaredNames {
        commons,
        entities,
        actions,
    } = names;
    Ok(AllDefs::from_names(alloc, commons, entities, actions))
}

// Names in the order in which they were declared.
#[derive(Drop)]
struct DeclaredNames {
    commons: Vec<InternalName>,
    entities: Vec<InternalName>,
    actions: Vec<EntityUID>,
}

// Adds what a namespace declares.
fn push_namespace(
    alloc: Global,
    names: &mut DeclaredNames,
    ns: &Option<Name>,
    definition: &NamespaceDefinition<RawName>,
) -> Result<(), AllocError>
    ensures commons { OnOk result (map components_of names.new.commons.items ≡ map components_of names.old.commons.items
        ++ commons_in ns.now definition.now) }
    ensures entities { OnOk result (map components_of names.new.entities.items
        ≡ map components_of names.old.entities.items ++ entities_in ns.now definition.now) }
    ensures actions { OnOk result (map action_of names.new.actions.items ≡ map action_of names.old.actions.items
        ++ actions_in ns.now definition.now) }
{
    push_commons(
        alloc,
        &mut names.commons,
        ns,
        definition.common_types.as_slice(),
    )?;
    push_entities(
        alloc,
        &mut names.entities,
        ns,
        definition.entity_types.as_slice(),
    )?;
    push_actions(alloc, &mut names.actions, ns, definition.actions.as_slice())
}

// Adds the common types.
fn push_commons(
    alloc: Global,
    names: &mut Vec<InternalName>,
    ns: &Option<Name>,
    commons: &[(CommonTypeId, CommonType<RawName>)],
) -> Result<(), AllocError>
    ensures { OnOk result (map components_of names.new.items ≡ map components_of names.old.items
        ++ map (λ e. components_of (declared_name ns.now e.0.id.id)) commons.now) }
{
    for (id, _) in commons {
        names.push(declared_name(alloc, ns, &id.id.id)?)?;
    }
    Ok(())
}

// Adds the entity types.
fn push_entities(
    alloc: Global,
    names: &mut Vec<InternalName>,
    ns: &Option<Name>,
    entities: &[(UnreservedId, EntityType<RawName>)],
) -> Result<(), AllocError>
    ensures { OnOk result (map components_of names.new.items ≡ map components_of names.old.items
        ++ map (λ e. components_of (declared_name ns.now e.0.id)) entities.now) }
{
    for (id, _) in entities {
        names.push(declared_name(alloc, ns, &id.id)?)?;
    }
    Ok(())
}

// Adds the actions.
fn push_actions(
    alloc: Global,
    names: &mut Vec<EntityUID>,
    ns: &Option<Name>,
    actions: &[(Text, ActionType<RawName>)],
) -> Result<(), AllocError>
    ensures { OnOk result (map action_of names.new.items ≡ map action_of names.old.items
        ++ map (λ e. (components_of (action_type ns.now), e.0)) actions.now) }
{
    for (id, _) in actions {
        names.push(action(alloc, ns, id)?)?;
    }
    Ok(())
}

// The action of a namespace with this id.
fn action(alloc: Global, ns: &Option<Name>, id: &Text) -> Result<EntityUID, AllocError>
    ensures { IfOk result (λ uid. action_of uid ≡ (components_of (action_type ns.now), id.now)) }
{
    let ty = action_type(alloc, ns)?;
    let eid = Eid(id.clone_in(alloc)?);
    Ok(EntityUID { ty, eid, loc: None })
}

/// The name of a namespace, and none of the empty one.
pub fn name_of(ns: &Option<Name>) -> Option<&InternalName>
    ensures { option_copied result ≡ name_of ns.now }
{
    match ns {
        Some(ns) => Some(&ns.name),
        None => None,
    }
}

// The word as a name, behind the namespace where there is one.
fn declared_name(alloc: Global, ns: &Option<Name>, id: &Id) -> Result<InternalName, AllocError>
    ensures { IfOk result (λ name. name ≡ declared_name ns.now id.now) }
{
    let plain = alone(alloc, id.clone_in(alloc)?);
    plain.qualify_with(alloc, name_of(ns))
}

/// A word as a name, without a place.
pub fn alone(alloc: Global, id: Id) -> InternalName
    ensures { result ≡ alone id }
{
    InternalName {
        first: id,
        others: List::new(alloc),
        loc: None,
    }
}

/// The type of the actions of a namespace: `Action`, with the namespace in front.
pub fn action_type(alloc: Global, ns: &Option<Name>) -> Result<Name, AllocError>
    ensures { IfOk result (λ ty. ty.name ≡ action_type ns.now) }
{
    let plain = action_name(alloc)?;
    let name = plain.qualify_with(alloc, name_of(ns))?;
    Ok(Name { name })
}
