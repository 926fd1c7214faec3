ghost use Rattle.std.specs.Prelude.{◌≡◌, ◌++◌, IfOk, OnOk, IfErr};
ghost use Rattle.std.specs.List.{flat_map};
ghost use Rattle.schema_resolve_definitions.specs.Declarations.{declared};
ghost use Rattle.schema_resolve_definitions.specs.Defined.{is_hidden};
ghost use Rattle.schema_resolve_definitions.specs.Tests.{tests_of};
ghost use Rattle.schema_build_checks.specs.DeclaredAt.{hiding_common, hiding_entity, hiding_types_in};
ghost use Rattle.schema_build_checks.specs.DeclaredTwice.{IsBasenameOf, TypeHides};
ghost use Rattle.schema_build_checks.specs.Rows.{Never, OrMemory};

use crate::declared_at::declared_at;
use crate::least::least;
use cedar_data::CloneIn;
use cedar_identifiers::{Id, InternalName, Name, RawName, UnreservedId};
use schema_build_errors::{Refusal, SchemaError, TypeShadowingError};
use schema_json::{CommonType, CommonTypeId, EntityType, Fragment, NamespaceDefinition};
use schema_resolve_definitions::declared::alone;
use schema_resolve_lookup::DeclaredDefs;
use std::alloc::{AllocError, Global};

/// Refuses a fragment in which a type of a named namespace has the name of a type of the empty one, and names the least
/// of them. The definitions are what the fragment declares.
pub fn check_type_shadowing(
    alloc: Global,
    fragment: &Fragment<RawName>,
    defs: &DeclaredDefs<'_>,
) -> Result<(), Refusal>
    requires { tests_of defs.now ≡ tests_of (declared fragment.now) }
    ensures ok { OnOk result (Never (TypeHides fragment.now)) }
    ensures err { IfErr result (OrMemory (TypeHides fragment.now)) }
{
    let mut found = Vec::new(alloc);
    for (ns, definition) in fragment.0.as_slice() {
        push_hiding_types(alloc, &mut found, defs, ns, definition)?;
    }
    match least(found) {
        Some(shadowing_def) => {
            let shadowed_def = basename(alloc, &shadowing_def)?;
            let error = TypeShadowingError {
                shadowed_def,
                shadowing_def,
            };
            Err(Refusal::new(alloc, SchemaError::TypeShadowing(error))?)
        }
        None => Ok(()),
    }
}

// Adds the types of a named namespace that have the name of a type of the empty one.
fn push_hiding_types(
    alloc: Global,
    found: &mut Vec<InternalName>,
    defs: &DeclaredDefs<'_>,
    ns: &Option<Name>,
    definition: &NamespaceDefinition<RawName>,
) -> Result<(), AllocError>
    ensures { OnOk result (found.new.items ≡ found.old.items ++ hiding_types_in (tests_of defs.now)
        (ns.now, definition.now)) }
{
    match ns {
        None => Ok(()),
        Some(_) => {
            let commons = definition.common_types.as_slice();
            push_hiding_commons(alloc, found, defs, ns, commons)?;
            let entities = definition.entity_types.as_slice();
            push_hiding_entities(alloc, found, defs, ns, entities)
        }
    }
}

// Adds the common types that have the name of a type of the empty namespace.
fn push_hiding_commons(
    alloc: Global,
    found: &mut Vec<InternalName>,
    defs: &DeclaredDefs<'_>,
    ns: &Option<Name>,
    commons: &[(CommonTypeId, CommonType<RawName>)],
) -> Result<(), AllocError>
    ensures { OnOk result (found.new.items ≡ found.old.items
        ++ flat_map (hiding_common (tests_of defs.now) ns.now) commons.now) }
{
    for (id, common) in commons {
        if is_hidden(alloc, defs, &id.id.id)? {
            found.push(declared_at(alloc, ns, &id.id.id, common.loc)?)?;
        }
    }
    Ok(())
}

// Adds the entity types that have the name of a type of the empty namespace.
fn push_hiding_entities(
    alloc: Global,
    found: &mut Vec<InternalName>,
    defs: &DeclaredDefs<'_>,
    ns: &Option<Name>,
    entities: &[(UnreservedId, EntityType<RawName>)],
) -> Result<(), AllocError>
    ensures { OnOk result (found.new.items ≡ found.old.items
        ++ flat_map (hiding_entity (tests_of defs.now) ns.now) entities.now) }
{
    for (id, entity) in entities {
        if is_hidden(alloc, defs, &id.id)? {
            found.push(declared_at(alloc, ns, &id.id, entity.loc)?)?;
        }
    }
    Ok(())
}

// Whether the empty namespace declares a type of this name.
fn is_hidden(alloc: Global, defs: &DeclaredDefs<'_>, id: &Id) -> Result<bool, AllocError>
    ensures { IfOk result (λ hidden. hidden ≡ is_hidden (tests_of defs.now) id.now.text) }
{
    let word = alone(alloc, id.clone_in(alloc)?);
    Ok(defs.is_defined_as_common(&word) || defs.is_defined_as_entity(&word))
}

// The last word of a name, without a place.
fn basename(alloc: Global, name: &InternalName) -> Result<InternalName, AllocError>
    ensures { IfOk result (λ word. IsBasenameOf name.now word) }
{
    match name.others.as_slice().split_last() {
        Some((id, _)) => Ok(alone(alloc, id.clone_in(alloc)?)),
        None => Ok(alone(alloc, name.first.clone_in(alloc)?)),
    }
}
