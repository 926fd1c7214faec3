ghost use Rattle.std.specs.Prelude.{◌≡◌, [], ◌∷◌, ◌++◌, IfOk, IfSome, OnOk};
ghost use Rattle.cedar_data.specs.Maps.{map_of};
ghost use Rattle.cedar_data.specs.NonEmpty.{items_left};
ghost use Rattle.cedar_data.specs.Text.{text_cmp};
ghost use Rattle.std.specs.Option.{option_to_list};
ghost use Rattle.schema_convert_fragments.specs.Declarations.{declarable, unreserved, each_with, entity_type_of};
ghost use Rattle.schema_syntax_tree.specs.DeclaredNames.{entity_names};
ghost use Rattle.schema_json.specs.Orders.{unreserved_cmp, common_cmp, namespace_cmp};
ghost use Rattle.schema_convert_types.specs.Names.{internal_name_of};
ghost use Rattle.schema_convert_fragments.specs.Fragments.{entity_entries_of, action_entries_of, common_entries_of};
ghost use Rattle.schema_convert_fragments.specs.Fragments.{entity_entries};
ghost use Rattle.schema_convert_fragments.specs.Fragments.{action_entries, common_entries, definition_of};
ghost use Rattle.schema_convert_fragments.specs.Fragments.{namespace_key, declarable_name};
ghost use Rattle.schema_convert_fragments.specs.Fragments.{namespace_entry, fragment_of};

use crate::actions::{action_ids, action_type};
use crate::entities::entity_type;
use crate::entries::{map_by_places, push_each};
use crate::room::room_for;
use cedar_data::{Boxed, List, Loc, Node, NonEmptyIter, Text};
use cedar_identifiers::{Annotations, Id, InternalName, Name, RawName, UnreservedId};
use schema_convert_types::names::internal_name;
use schema_convert_types::types::node_type;
use schema_json::{
    ActionType, CommonType, CommonTypeId, EntityType, Fragment, NamespaceDefinition,
};
use schema_syntax_tree::{
    ActionDecl, Annotated, Declaration, EntityDecl, Namespace, Path, SrcId, TypeDecl,
};
use std::alloc::{AllocError, Global};

/// What declarations declare, by kind.
#[derive(Drop)]
pub struct Entries {
    pub commons: Vec<(CommonTypeId, CommonType<RawName>)>,
    pub entities: Vec<(UnreservedId, EntityType<RawName>)>,
    pub actions: Vec<(Text, ActionType<RawName>)>,
}

impl Entries {
    /// No entries, which takes no memory.
    pub fn new(alloc: Global) -> Entries
        ensures commons { result.commons.items ≡ [] }
        ensures entities { result.entities.items ≡ [] }
        ensures actions { result.actions.items ≡ [] }
    {
        Entries {
            commons: Vec::new(alloc),
            entities: Vec::new(alloc),
            actions: Vec::new(alloc),
        }
    }
}

// The word as one that may be declared.
fn unreserved(id: Id) -> Option<UnreservedId>
    ensures { result ≡ unreserved id }
{
    UnreservedId::from_id(id)
}

// The word as one that may be declared, of its own.
fn unreserved_copy(alloc: Global, id: &SrcId<'_>) -> Result<Option<UnreservedId>, AllocError>
    ensures { IfOk result (λ copy. copy ≡ unreserved id.now) }
{
    Ok(unreserved(id.to_id(alloc)?))
}

// Adds the name, where it may be declared.
fn push_declarable(
    alloc: Global,
    ids: &mut Vec<UnreservedId>,
    name: &Node<SrcId<'_>>,
) -> Result<(), AllocError>
    ensures { OnOk result (ids.new.items ≡ ids.old.items ++ option_to_list (unreserved name.now.node)) }
{
    if let Some(id) = unreserved_copy(alloc, &name.node)? {
        ids.push(id)?;
    }
    Ok(())
}

// The names that may be declared.
fn declarable<'a, 'b>(
    alloc: Global,
    names: NonEmptyIter<'b, Node<SrcId<'a>>>,
) -> Result<Vec<UnreservedId>, AllocError>
    ensures { IfOk result (λ ids. ids.items ≡ declarable (items_left names.entry)) }
{
    let mut ids = Vec::with_capacity(alloc, 1)?;
    for name in names {
        push_declarable(alloc, &mut ids, name)?;
    }
    Ok(ids)
}

// The name of the entity type, where the declaration has no other.
fn only_name<'a, 'b>(decl: &'b EntityDecl<'a>) -> Option<&'b Node<SrcId<'a>>>
    ensures { IfSome result (λ name. entity_names decl.now ≡ name.now ∷ []) }
{
    let (first, others) = match decl {
        EntityDecl::Standard(decl) => decl.names.parts(),
        EntityDecl::Enum(decl) => decl.names.parts(),
        EntityDecl::External(decl) => decl.names.parts(),
    };
    if others.is_empty() { Some(first) } else { None }
}

// Adds the entity type of this name, where it may be declared.
fn push_entity(
    alloc: Global,
    entries: &mut Vec<(UnreservedId, EntityType<RawName>)>,
    name: Option<UnreservedId>,
    decl: &EntityDecl<'_>,
    annotations: Annotations,
    loc: Option<Loc>,
) -> Result<(), AllocError>
    ensures { OnOk result (entries.new.items ≡ entries.old.items ++ each_with (entity_type_of decl.now annotations loc)
        (option_to_list name)) }
{
    let of = entity_type(alloc, decl, annotations, loc)?;
    if let Some(name) = name {
        entries.push((name, of))?;
    }
    Ok(())
}

// Adds the entity types of all its names.
#[inline(never)]
fn push_each_entity(
    alloc: Global,
    entries: &mut Vec<(UnreservedId, EntityType<RawName>)>,
    decl: &EntityDecl<'_>,
    annotations: Annotations,
    loc: Option<Loc>,
) -> Result<(), AllocError>
    ensures { OnOk result (entries.new.items ≡ entries.old.items
        ++ entity_entries_of (Declaration.Entity decl.now) annotations loc) }
{
    let names = declarable(alloc, decl.names())?;
    let of = entity_type(alloc, decl, annotations, loc)?;
    push_each(alloc, entries, names, of)
}

// Adds the entity types that the declaration declares. Most have one name, of which no list is made.
fn push_entities(
    alloc: Global,
    entries: &mut Vec<(UnreservedId, EntityType<RawName>)>,
    decl: &EntityDecl<'_>,
    annotations: Annotations,
    loc: Option<Loc>,
) -> Result<(), AllocError>
    ensures { OnOk result (entries.new.items ≡ entries.old.items
        ++ entity_entries_of (Declaration.Entity decl.now) annotations loc) }
{
    match only_name(decl) {
        None => push_each_entity(alloc, entries, decl, annotations, loc),
        Some(name) => {
            let name = unreserved_copy(alloc, &name.node)?;
            push_entity(alloc, entries, name, decl, annotations, loc)
        }
    }
}

// Adds the actions.
#[inline(never)]
fn push_actions(
    alloc: Global,
    entries: &mut Vec<(Text, ActionType<RawName>)>,
    decl: &ActionDecl<'_>,
    annotations: Annotations,
    loc: Option<Loc>,
) -> Result<(), AllocError>
    ensures { OnOk result (entries.new.items ≡ entries.old.items
        ++ action_entries_of (Declaration.Action decl.now) annotations loc) }
{
    let names = action_ids(alloc, decl)?;
    let of = action_type(alloc, decl, annotations, loc)?;
    push_each(alloc, entries, names, of)
}

// Adds the common type.
#[inline(never)]
fn push_common(
    alloc: Global,
    entries: &mut Vec<(CommonTypeId, CommonType<RawName>)>,
    decl: &TypeDecl<'_>,
    annotations: Annotations,
    loc: Option<Loc>,
) -> Result<(), AllocError>
    ensures { OnOk result (entries.new.items ≡ entries.old.items
        ++ common_entries_of (Declaration.Common decl.now) annotations loc) }
{
    let ty = node_type(alloc, &decl.def)?;
    let of = CommonType {
        ty,
        annotations,
        loc,
    };
    if let Some(id) = unreserved_copy(alloc, &decl.name.node)? {
        entries.push((CommonTypeId { id }, of))?;
    }
    Ok(())
}

/// Adds what the declaration declares. Each kind of declarations stands by itself, so that none needs room for another.
pub fn push_declared<'a>(
    alloc: Global,
    entries: &mut Entries,
    decl: &Annotated<'a, Node<Declaration<'a>>>,
) -> Result<(), AllocError>
    ensures commons { OnOk result (entries.new.commons.items ≡ entries.old.commons.items
        ++ common_entries_of decl.now.item.node decl.now.annotations decl.now.item.loc) }
    ensures entities { OnOk result (entries.new.entities.items ≡ entries.old.entities.items
        ++ entity_entries_of decl.now.item.node decl.now.annotations decl.now.item.loc) }
    ensures actions { OnOk result (entries.new.actions.items ≡ entries.old.actions.items
        ++ action_entries_of decl.now.item.node decl.now.annotations decl.now.item.loc) }
{
    let annotations = decl.annotations.to_annotations(alloc)?;
    let loc = decl.item.loc;
    match &decl.item.node {
        Declaration::Entity(decl) => {
            push_entities(alloc, &mut entries.entities, decl, annotations, loc)
        }
        Declaration::Action(decl) => {
            push_actions(alloc, &mut entries.actions, decl.get(), annotations, loc)
        }
        Declaration::Common(decl) => {
            push_common(alloc, &mut entries.commons, decl, annotations, loc)
        }
    }
}

// What the declarations declare, each of which is let go once it is translated.
fn entries_of<'a>(
    alloc: Global,
    decls: List<Annotated<'a, Node<Declaration<'a>>>>,
) -> Result<Entries, AllocError>
    ensures commons { IfOk result (λ entries. entries.commons.items ≡ common_entries decls.entry) }
    ensures entities { IfOk result (λ entries. entries.entities.items ≡ entity_entries decls.entry) }
    ensures actions { IfOk result (λ entries. entries.actions.items ≡ action_entries decls.entry) }
{
    let decls = decls.into_vec();
    let room = room_for(decls.as_slice());
    let mut entries = Entries {
        commons: Vec::with_capacity(alloc, room.commons)?,
        entities: Vec::with_capacity(alloc, room.entities)?,
        actions: Vec::with_capacity(alloc, room.actions)?,
    };
    for decl in decls {
        push_declared(alloc, &mut entries, &decl)?;
    }
    Ok(entries)
}

/// What a namespace with these entries and annotations defines.
pub fn definition_from(
    alloc: Global,
    entries: Entries,
    annotations: Annotations,
) -> Result<NamespaceDefinition<RawName>, AllocError>
    ensures { IfOk result (λ definition. definition ≡ record {
      common_types = map_of common_cmp entries.commons.items;
      entity_types = map_of unreserved_cmp entries.entities.items;
      actions = map_of text_cmp entries.actions.items;
      annotations = annotations;
    }) }
{
    let Entries {
        commons,
        entities,
        actions,
    } = entries;
    let common_types = map_by_places(alloc, commons)?;
    let entity_types = map_by_places(alloc, entities)?;
    let actions = map_by_places(alloc, actions)?;
    Ok(NamespaceDefinition {
        common_types,
        entity_types,
        actions,
        annotations,
    })
}

// What a namespace with these declarations and annotations defines.
fn definition_of<'a>(
    alloc: Global,
    decls: List<Annotated<'a, Node<Declaration<'a>>>>,
    annotations: Annotations,
) -> Result<NamespaceDefinition<RawName>, AllocError>
    ensures { IfOk result (λ definition. definition ≡ definition_of decls.entry annotations) }
{
    let entries = entries_of(alloc, decls)?;
    definition_from(alloc, entries, annotations)
}

// The name as one that may be declared.
fn declarable_name(name: InternalName) -> Option<Name>
    ensures { result ≡ declarable_name name }
{
    Name::from_internal(name)
}

/// The name of a namespace that has one, where it may be declared.
pub fn declared_key(alloc: Global, path: &Path<'_>) -> Result<Option<Name>, AllocError>
    ensures { IfOk result (λ key. key ≡ declarable_name (internal_name_of path.now)) }
{
    Ok(declarable_name(internal_name(alloc, path)?))
}

// The name of a namespace that may be declared.
fn namespace_key(
    alloc: Global,
    name: &Option<Boxed<Path<'_>>>,
) -> Result<Option<Option<Name>>, AllocError>
    ensures { IfOk result (λ key. key ≡ namespace_key name.now) }
{
    match name {
        None => Ok(Some(None)),
        Some(path) => match declared_key(alloc, path.get())? {
            None => Ok(None),
            Some(name) => Ok(Some(Some(name))),
        },
    }
}

// Adds the namespace, where its name may be declared.
fn push_namespace<'a>(
    alloc: Global,
    entries: &mut Vec<(Option<Name>, NamespaceDefinition<RawName>)>,
    namespace: Annotated<'a, Namespace<'a>>,
) -> Result<(), AllocError>
    ensures { OnOk result (entries.new.items ≡ entries.old.items ++ option_to_list (namespace_entry namespace.entry)) }
{
    let (item, annotations) = namespace.into_parts();
    let (name, decls, _) = item.into_parts();
    let Some(key) = namespace_key(alloc, &name)? else {
        return Ok(());
    };
    let annotations = annotations.to_annotations(alloc)?;
    let definition = definition_of(alloc, decls, annotations)?;
    entries.push((key, definition))?;
    Ok(())
}

/// The fragment of these entries, of which the last of a name counts.
pub fn fragment_from(
    alloc: Global,
    entries: Vec<(Option<Name>, NamespaceDefinition<RawName>)>,
) -> Result<Fragment<RawName>, AllocError>
    ensures { IfOk result (λ fragment. fragment ≡ record { 0 = map_of namespace_cmp entries.items }) }
{
    let entries = map_by_places(alloc, entries)?;
    Ok(Fragment(entries))
}

/// The fragment of namespaces with distinct names that may be declared, and distinct such declarations of each kind.
/// Any other name is left out, and of those that stand twice the last counts.
pub fn fragment_of<'a>(
    alloc: Global,
    namespaces: Vec<Annotated<'a, Namespace<'a>>>,
) -> Result<Fragment<RawName>, AllocError>
    ensures { IfOk result (λ fragment. fragment ≡ fragment_of namespaces.entry.items) }
{
    let mut entries = Vec::with_capacity(alloc, namespaces.len())?;
    for namespace in namespaces {
        push_namespace(alloc, &mut entries, namespace)?;
    }
    fragment_from(alloc, entries)
}
