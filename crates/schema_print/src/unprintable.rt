ghost use Rattle.std.specs.Prelude.{◌≡◌, ◌++◌, [], map, IfOk, OnOk, MatchOption};
ghost use Rattle.cedar_identifiers.specs.Names.{components_of};
ghost use Rattle.schema_print.specs.Collisions.{AreSortedNames, declared_in, if_wanted, names_entity_type, repeated_in};
ghost use Rattle.schema_print.specs.Collisions.{collisions_in, collisions, shapeless_in, shapeless, is_shapeless};
ghost use Rattle.schema_print.specs.Collisions.{is_record_type};

use cedar_data::{CloneIn, List, NonEmpty};
use cedar_identifiers::{InternalName, Name, NameText, UnreservedId};
use schema_json::{EntityType, EntityTypeKind, Fragment, NamespaceDefinition, Type, TypeVariant};
use std::alloc::{AllocError, Global};

// The name that is declared in a namespace, without a place.
fn declared_in(
    alloc: Global,
    namespace: &Option<Name>,
    id: &UnreservedId,
) -> Result<InternalName, AllocError>
    ensures { IfOk result (λ name. components_of name ≡ declared_in namespace.now id.now.id.text) }
{
    let name = InternalName {
        first: id.id.clone_in(alloc)?,
        others: List::new(alloc),
        loc: None,
    };
    match namespace {
        None => Ok(name),
        Some(namespace) => { name.qualify_with(alloc, Some(&namespace.name)) }
    }
}

// Adds the name, where it is wanted.
fn add_name(
    alloc: Global,
    names: &mut Vec<InternalName>,
    namespace: &Option<Name>,
    id: &UnreservedId,
    wanted: bool,
) -> Result<(), AllocError>
    ensures { OnOk result (map components_of names.new.items ≡ map components_of names.old.items
        ++ if_wanted wanted (declared_in namespace.now id.now.id.text)) }
{
    if !wanted {
        return Ok(());
    }
    names.push(declared_in(alloc, namespace, id)?)?;
    Ok(())
}

/// The names that a named namespace has both as an entity type and as a common type, in the order of the namespaces.
pub fn collisions<N: NameText>(
    alloc: Global,
    fragment: &Fragment<N>,
) -> Result<Vec<InternalName>, AllocError>
    ensures { IfOk result (λ names. map components_of names.items ≡ collisions fragment.now) }
{
    let mut names = Vec::new(alloc);
    for (name, namespace) in fragment.0.as_slice() {
        add_collisions(alloc, &mut names, name, namespace)?;
    }
    Ok(names)
}

// Adds those of a namespace. The empty one has none.
fn add_collisions<N: NameText>(
    alloc: Global,
    names: &mut Vec<InternalName>,
    name: &Option<Name>,
    namespace: &NamespaceDefinition<N>,
) -> Result<(), AllocError>
    ensures { OnOk result (map components_of names.new.items ≡ map components_of names.old.items
        ++ collisions_in name.now namespace.now) }
{
    match name {
        None => Ok(()),
        Some(_) => add_repeated(alloc, names, name, namespace),
    }
}

// Adds the names that a namespace has both as an entity type and as a common type.
fn add_repeated<N: NameText>(
    alloc: Global,
    names: &mut Vec<InternalName>,
    name: &Option<Name>,
    namespace: &NamespaceDefinition<N>,
) -> Result<(), AllocError>
    ensures { OnOk result (map components_of names.new.items ≡ map components_of names.old.items
        ++ repeated_in name.now namespace.now) }
{
    for (id, _) in namespace.common_types.as_slice() {
        let id = id.as_unreserved();
        add_name(alloc, names, name, id, is_entity_type(namespace, id))?;
    }
    Ok(())
}

// Whether an entity type of the namespace has the name.
pub(crate) fn is_entity_type<N: NameText>(
    namespace: &NamespaceDefinition<N>,
    id: &UnreservedId,
) -> bool
    ensures { result ≡ names_entity_type namespace.now.entity_types id.now.id.text }
{
    match namespace.entity_types.get(id) {
        Some(_) => true,
        None => false,
    }
}

/// The entity types whose shapes are no records, in the order of the namespaces.
pub fn shapeless<N: NameText>(
    alloc: Global,
    fragment: &Fragment<N>,
) -> Result<Vec<InternalName>, AllocError>
    ensures { IfOk result (λ names. map components_of names.items ≡ shapeless fragment.now) }
{
    let mut names = Vec::new(alloc);
    for (name, namespace) in fragment.0.as_slice() {
        add_shapeless(alloc, &mut names, name, namespace.entity_types.as_slice())?;
    }
    Ok(names)
}

// Adds those of a namespace.
fn add_shapeless<N>(
    alloc: Global,
    names: &mut Vec<InternalName>,
    name: &Option<Name>,
    entity_types: &[(UnreservedId, EntityType<N>)],
) -> Result<(), AllocError>
    ensures { OnOk result (map components_of names.new.items ≡ map components_of names.old.items
        ++ shapeless_in name.now entity_types.now) }
{
    for (id, entity_type) in entity_types {
        add_name(alloc, names, name, id, is_shapeless(entity_type))?;
    }
    Ok(())
}

/// The names, sorted; and `None` exactly where there is none.
pub fn sorted_names(
    mut names: Vec<InternalName>,
) -> Result<Option<NonEmpty<InternalName>>, AllocError>
    ensures { IfOk result (λ found. MatchOption found (names.items ≡ [])
        (AreSortedNames ⟦<InternalName as Ord>⟧.cmp (map components_of names.items))) }
{
    names.sort()?;
    match NonEmpty::from_vec(names) {
        None => Ok(None),
        Some(sorted) => Ok(Some(sorted)),
    }
}

// Whether it is a standard entity type that is not external, and whose shape is no record.
pub(crate) fn is_shapeless<N>(entity_type: &EntityType<N>) -> bool
    ensures { result ≡ is_shapeless entity_type.now }
{
    match &entity_type.kind {
        EntityTypeKind::Standard(standard) => !entity_type.external
            && !is_record(&standard.get().shape.0),
        EntityTypeKind::Enum { .. } => false,
    }
}

// Whether the type is a record, open or closed.
pub(crate) fn is_record<N>(ty: &Type<N>) -> bool
    ensures { result ≡ is_record_type ty.now }
{
    match ty {
        Type::Variant {
            ty: TypeVariant::Record(_),
            ..
        } => true,
        _ => false,
    }
}
