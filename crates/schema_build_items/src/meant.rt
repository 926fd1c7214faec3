ghost use Rattle.std.specs.Prelude.{◌≡◌, map, All, Contains, Some, IsSome, IfOk};
ghost use Rattle.std.specs.List.Sorted.{IsStrictlySortedBy};
ghost use Rattle.cedar_identifiers.specs.Names.{components_of};
ghost use Rattle.cedar_identifiers.specs.declared.reference_type.ReferenceType.TheVariants.{Entity};
ghost use Rattle.schema_resolve_definitions.specs.Declarations.{name_of};
ghost use Rattle.schema_build_scope.specs.FragmentScope.{fragment_scope};
ghost use Rattle.schema_build_hierarchy.specs.FirstUses.{HasAlike};
ghost use Rattle.schema_build_hierarchy.specs.Parents.{target_in};
ghost use Rattle.schema_build_items.specs.ActionKinds.{AreEntitiesMeant, AreJust, IsMeantByOne, as_components};
ghost use Rattle.schema_build_items.specs.ActionKinds.{components_cmp, tests_alone};

use cedar_identifiers::{Name, RawName, ReferenceType};
use schema_build_expand::{Meanings, Target};
use schema_build_scope::FragmentNames;
use std::alloc::{AllocError, Global};

// The entity types that the names mean, in order, each once.
pub(crate) fn entities_meant(
    alloc: Global,
    names: &FragmentNames<'_>,
    ns: &Option<Name>,
    written: &[RawName],
) -> Result<Vec<Name>, AllocError>
    requires { AreEntitiesMeant names.now.fragment names.now.table ns.now written.now }
    ensures { IfOk result (λ found. AreJust components_cmp
        (IsMeantByOne (tests_alone names.now.fragment names.now.table) ns.now written.now)
        (as_components found.items)) }
{
    let found = each_meant(alloc, names, ns, written)?;
    Ok(each_once(found))
}

// What each of the names means.
fn each_meant(
    alloc: Global,
    names: &FragmentNames<'_>,
    ns: &Option<Name>,
    written: &[RawName],
) -> Result<Vec<Name>, AllocError>
    requires { AreEntitiesMeant names.now.fragment names.now.table ns.now written.now }
    ensures { IfOk result (λ found. map (λ n. Some (components_of n.name)) found.items
        ≡ map (target_in (tests_alone names.now.fragment names.now.table) ns.now Entity) written.now) }
{
    let mut found = Vec::with_capacity(alloc, written.len())?;
    for name in written {
        found.push(entity_meant(alloc, names, ns, name)?)?;
    }
    Ok(found)
}

// The entity type that the name means.
fn entity_meant(
    alloc: Global,
    names: &FragmentNames<'_>,
    ns: &Option<Name>,
    name: &RawName,
) -> Result<Name, AllocError>
    requires { IsSome ((fragment_scope names.now.fragment names.now.table).means (name_of ns.now) Entity name.now) }
    ensures { IfOk result (λ n. Some (components_of n.name)
        ≡ target_in (tests_alone names.now.fragment names.now.table) ns.now Entity name.now) }
{
    let target = names
        .in_namespace(ns)
        .target(alloc, ReferenceType::Entity, name)?;
    match target {
        Target::Entity(name) => Ok(name),
        _ => unreachable!(),
    }
}

// In order, each once.
fn each_once<T: Ord + Drop>(mut items: Vec<T>) -> Vec<T>
    ensures sorted { IsStrictlySortedBy T.cmp result.items }
    ensures kept { All (Contains items.items) result.items }
    ensures whole { All (HasAlike T.cmp result.items) items.items }
{
    items.sort_unstable();
    items.dedup();
    items
}
