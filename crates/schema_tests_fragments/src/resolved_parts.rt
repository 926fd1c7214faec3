// The parts of resolved texts, each resolved alone where it is known what is defined: qualified in its namespace, and then
// replaced by what is meant.

use crate::resolved_table::resolved_lines;
use cedar_data::{CloneIn, Text};
use cedar_identifiers::{InternalName, Name, RawName};
use cedar_names::{AllDefs, ExtensionTable};
use schema_convert::parse_cedar_schema_fragment;
use schema_json::{
    ActionType, ApplySpec, EntityType, EntityTypeKind, Fragment, NamespaceDefinition, Type,
    TypeOfAttribute, TypeVariant,
};
use schema_resolve::{Designate, FullyQualify, Qualify, ResolveFragment};
use schema_resolve_definitions::all_definitions;
use schema_tests_lines::answer_and_text;
use std::alloc::Global;

// Where the parts stand, and what is defined.
#[derive(Drop)]
struct Within<'a> {
    alloc: Global,
    ns: Option<&'a InternalName>,
    defs: &'a AllDefs,
}

// What was written, with what its references mean in place of them, or nothing.
fn replaced<Q: FullyQualify, T: Qualify<Out = Q> + CloneIn>(
    within: &Within<'_>,
    written: &T,
) -> Option<Q::Out>
where
    Q::Out: Drop,
{
    let Ok(copy) = written.clone_in(within.alloc) else {
        return None;
    };
    let Ok(references) = copy.conditionally_qualify_type_references(within.alloc, within.ns) else {
        return None;
    };
    references
        .fully_qualify_type_references(within.alloc, within.defs)
        .ok()
}

// Is this what was written, with what its references mean?
fn means<Q: FullyQualify, T: Qualify<Out = Q> + CloneIn>(
    within: &Within<'_>,
    written: &T,
    expected: &Q::Out,
) -> bool
where
    Q::Out: PartialEq + Drop,
{
    match replaced(within, written) {
        Some(found) => found == *expected,
        None => false,
    }
}

// Is this what is given, with each reference as one to a common type or to an entity type?
fn designates<T: Designate + CloneIn + PartialEq>(
    alloc: Global,
    defs: &AllDefs,
    given: &T,
    expected: &T,
) -> bool {
    let Ok(copy) = given.clone_in(alloc) else {
        return false;
    };
    match copy.resolve_entity_or_common_types(alloc, defs) {
        Ok(found) => found == *expected,
        Err(_) => false,
    }
}

// Are the attributes resolved, each alone?
fn attributes_agree(
    within: &Within<'_>,
    written: &[(Text, TypeOfAttribute<RawName>)],
    full: &[(Text, TypeOfAttribute<InternalName>)],
) -> bool {
    written
        .iter()
        .zip(full.iter())
        .all(|(one, other)| means(within, &one.1, &other.1))
}

// Is what a type is resolved alone, where it is no reference?
fn variant_agrees(
    within: &Within<'_>,
    written: &TypeVariant<RawName>,
    full: &TypeVariant<InternalName>,
) -> bool {
    match (written, full) {
        (TypeVariant::Record(record), TypeVariant::Record(other)) => {
            means(within, written, full)
                && means(within, record, other)
                && attributes_agree(
                    within,
                    record.attributes.as_slice(),
                    other.attributes.as_slice(),
                )
        }
        (TypeVariant::Set { .. }, TypeVariant::Set { .. }) => means(within, written, full),
        _ => true,
    }
}

// Is the type resolved alone, with its parts?
fn type_agrees(within: &Within<'_>, written: &Type<RawName>, full: &Type<InternalName>) -> bool {
    if !means(within, written, full) {
        return false;
    }
    match (written, full) {
        (Type::Variant { ty, .. }, Type::Variant { ty: other, .. }) => {
            variant_agrees(within, ty, other)
        }
        _ => true,
    }
}

// Is the entity type resolved alone, with its parts?
fn entity_agrees(
    within: &Within<'_>,
    written: &EntityType<RawName>,
    full: &EntityType<InternalName>,
) -> bool {
    if !means(within, written, full) {
        return false;
    }
    match (&written.kind, &full.kind) {
        (EntityTypeKind::Standard(one), EntityTypeKind::Standard(other)) => {
            let (one, other) = (&one.get().shape, &other.get().shape);
            means(within, one, other) && type_agrees(within, &one.0, &other.0)
        }
        _ => true,
    }
}

// Is what the action applies to resolved alone?
fn application_agrees(
    within: &Within<'_>,
    written: &Option<ApplySpec<RawName>>,
    full: &Option<ApplySpec<InternalName>>,
) -> bool {
    match (written, full) {
        (Some(written), Some(full)) => {
            means(within, written, full) && type_agrees(within, &written.context.0, &full.context.0)
        }
        _ => true,
    }
}

// Is the action resolved alone, with its parts?
fn action_agrees(
    within: &Within<'_>,
    written: &ActionType<RawName>,
    full: &ActionType<InternalName>,
) -> bool {
    if !means(within, written, full) {
        return false;
    }
    if !application_agrees(within, &written.applies_to, &full.applies_to) {
        return false;
    }
    match (&written.member_of, &full.member_of) {
        (Some(parents), Some(others)) => parents
            .as_slice()
            .iter()
            .zip(others.as_slice().iter())
            .all(|(one, other)| means(within, one, other)),
        _ => true,
    }
}

// Are the parts of the namespace resolved, each alone?
fn items_agree(
    within: &Within<'_>,
    written: &NamespaceDefinition<RawName>,
    full: &NamespaceDefinition<InternalName>,
) -> bool {
    let mut commons = written
        .common_types
        .as_slice()
        .iter()
        .zip(full.common_types.as_slice().iter());
    let mut entities = written
        .entity_types
        .as_slice()
        .iter()
        .zip(full.entity_types.as_slice().iter());
    let mut actions = written
        .actions
        .as_slice()
        .iter()
        .zip(full.actions.as_slice().iter());
    commons.all(|(one, other)| type_agrees(within, &one.1.ty, &other.1.ty))
        && entities.all(|(one, other)| entity_agrees(within, &one.1, &other.1))
        && actions.all(|(one, other)| action_agrees(within, &one.1, &other.1))
}

// Is the namespace resolved to what is expected, with its parts?
fn namespace_agrees(
    within: &Within<'_>,
    written: &NamespaceDefinition<RawName>,
    expected: &NamespaceDefinition<InternalName>,
) -> bool {
    match replaced(within, written) {
        Some(full) => {
            items_agree(within, written, &full)
                && designates(within.alloc, within.defs, &full, expected)
        }
        None => false,
    }
}

// The namespace's name.
fn name_of(name: &Option<Name>) -> Option<&InternalName> {
    match name {
        Some(name) => Some(&name.name),
        None => None,
    }
}

// Are the namespaces of the fragment resolved, each alone?
fn namespaces_agree(
    alloc: Global,
    written: &Fragment<RawName>,
    full: &Fragment<InternalName>,
    defs: &AllDefs,
) -> bool {
    for ((name, one), (_, other)) in written.0.as_slice().iter().zip(full.0.as_slice().iter()) {
        let ns = name_of(name);
        if !namespace_agrees(&Within { alloc, ns, defs }, one, other) {
            return false;
        }
    }
    designates(alloc, defs, full, full)
}

// Are the parts of the fragment resolved?
fn parts_agree(alloc: Global, fragment: &Fragment<RawName>, table: &ExtensionTable) -> bool {
    let Ok(defs) = all_definitions(alloc, fragment, table) else {
        return false;
    };
    match fragment.to_internal_name_fragment_with_resolved_types(alloc, table) {
        Ok(full) => namespaces_agree(alloc, fragment, &full, &defs),
        Err(_) => false,
    }
}

// Are the parts of the line's text resolved?
fn agrees(alloc: Global, line: &str, table: &ExtensionTable) -> bool {
    let (_, text) = answer_and_text(line);
    match parse_cedar_schema_fragment(alloc, text, table) {
        Ok((fragment, _)) => parts_agree(alloc, &fragment, table),
        Err(_) => false,
    }
}

// The first of the lines whose parts are not resolved, or nothing.
fn first_wrong(alloc: Global, lines: &str) -> &str {
    let Ok(table) = ExtensionTable::all_available(alloc) else {
        return "no table";
    };
    for line in lines.lines() {
        if !agrees(alloc, line, &table) {
            return line;
        }
    }
    ""
}

#[test]
fn parts_are_resolved_alone(rt: HostRuntime) {
    let wrong = first_wrong(rt.alloc(), resolved_lines());
    assert!(rt; wrong.is_empty(), "{wrong}");
}
