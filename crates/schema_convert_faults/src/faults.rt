ghost use Rattle.std.specs.Prelude.{◌≡◌, ◌++◌, map, IfOk, OnOk};
ghost use Rattle.std.specs.List.{filter_map};
ghost use Rattle.std.specs.Option.{option_to_list};
ghost use Rattle.schema_convert_faults.specs.Faults.{is_reserved_path, reserved_namespace, id_twice, action_twice};
ghost use Rattle.schema_convert_faults.specs.Faults.{declared_twice};
ghost use Rattle.schema_convert_faults.specs.Faults.{name_fault, reserved_id, keyword, common_fault, first_some};
ghost use Rattle.schema_convert_faults.specs.Faults.{applies_fault};
ghost use Rattle.schema_convert_faults.specs.Faults.{action_fault, entity_faults, action_faults, declaration_faults};
ghost use Rattle.schema_convert_faults.specs.Faults.{all_declaration_faults, faults_in};
ghost use Rattle.schema_convert_faults.specs.NamesIn.{entities_of};

use crate::members::block_fault;
use crate::names_in::{action_names_in, common_names_in, entity_names_in};
use cedar_data::{Boxed, Node, NonEmpty, Text};
use cedar_identifiers::is_cedar;
use schema_convert_errors::{
    DuplicateDeclarations, ReservedName, ReservedSchemaKeyword, ToJsonSchemaError,
};
use schema_convert_openings::repeats::first_repeat;
use schema_json::is_keyword_name;
use schema_syntax_tree::{
    ActionDecl, Annotated, AppDecl, Declaration, Namespace, Path, SrcId, SrcStr,
};
use std::alloc::{AllocError, Global};

/// Whether an id of the path is `__cedar`.
pub fn is_reserved_path(path: &Path<'_>) -> bool
    ensures { result ≡ is_reserved_path path.now }
{
    for id in path.iter() {
        if is_cedar(id.as_str()) {
            return true;
        }
    }
    false
}

// The fault of a namespace whose name is reserved.
fn reserved_namespace(
    alloc: Global,
    name: &Option<Boxed<Path<'_>>>,
) -> Result<Option<ToJsonSchemaError>, AllocError>
    ensures { IfOk result (λ fault. fault ≡ reserved_namespace name.now) }
{
    let Some(path) = name else {
        return Ok(None);
    };
    let path = path.get();
    if !is_reserved_path(path) {
        return Ok(None);
    }
    let fault = ReservedName {
        name: path.text(alloc)?,
        loc: path.loc().copied(),
    };
    Ok(Some(ToJsonSchemaError::ReservedName(fault)))
}

// The fault of a name that stands twice.
fn twice<T>(decl: Text, first: &Node<T>, second: &Node<T>) -> ToJsonSchemaError
    ensures { result ≡ ToJsonSchemaError.DuplicateDeclarations (record {
      decl = decl;
      loc1 = first.now.loc;
      loc2 = second.now.loc;
    }) }
{
    ToJsonSchemaError::DuplicateDeclarations(DuplicateDeclarations {
        decl,
        loc1: first.loc,
        loc2: second.loc,
    })
}

// The word as a text.
fn id_text(alloc: Global, id: &SrcId<'_>) -> Result<Text, AllocError>
    ensures { IfOk result (λ text. text ≡ id.now.text) }
{
    Text::from_str(alloc, id.as_str())
}

// The first of the ids that stands twice.
fn id_twice(
    alloc: Global,
    names: Vec<&Node<SrcId<'_>>>,
) -> Result<Option<ToJsonSchemaError>, AllocError>
    ensures { IfOk result (λ fault. fault ≡ id_twice (map (λ x. x.now) names.entry.items)) }
{
    match first_repeat(alloc, names)? {
        None => Ok(None),
        Some((first, second)) => {
            let text = id_text(alloc, &second.node)?;
            Ok(Some(twice(text, first, second)))
        }
    }
}

// The first of the actions that stands twice.
fn action_twice(
    alloc: Global,
    names: Vec<&Node<SrcStr<'_>>>,
) -> Result<Option<ToJsonSchemaError>, AllocError>
    ensures { IfOk result (λ fault. fault ≡ action_twice (map (λ x. x.now) names.entry.items)) }
{
    match first_repeat(alloc, names)? {
        None => Ok(None),
        Some((first, second)) => {
            let text = second.node.to_text(alloc)?;
            Ok(Some(twice(text, first, second)))
        }
    }
}

// The first repeat of the entity types, or else of the actions, or else of the common types.
fn declared_twice<'a>(
    alloc: Global,
    decls: &[Annotated<'a, Node<Declaration<'a>>>],
) -> Result<Option<ToJsonSchemaError>, AllocError>
    ensures { IfOk result (λ fault. fault ≡ declared_twice decls.now) }
{
    let entities = entity_names_in(alloc, decls)?;
    if let Some(fault) = id_twice(alloc, entities)? {
        return Ok(Some(fault));
    }
    let actions = action_names_in(alloc, decls)?;
    if let Some(fault) = action_twice(alloc, actions)? {
        return Ok(Some(fault));
    }
    let commons = common_names_in(alloc, decls)?;
    id_twice(alloc, commons)
}

// The fault of the namespace's name, or else a repeat in it.
fn name_fault<'a>(
    alloc: Global,
    namespace: &Annotated<'a, Namespace<'a>>,
) -> Result<Option<ToJsonSchemaError>, AllocError>
    ensures { IfOk result (λ fault. fault ≡ name_fault namespace.now) }
{
    match reserved_namespace(alloc, &namespace.item.name)? {
        Some(fault) => Ok(Some(fault)),
        None => declared_twice(alloc, namespace.item.decls.as_slice()),
    }
}

// Adds the fault, where there is one.
fn push_fault(
    faults: &mut Vec<ToJsonSchemaError>,
    fault: Option<ToJsonSchemaError>,
) -> Result<(), AllocError>
    ensures { OnOk result (faults.new.items ≡ faults.old.items ++ option_to_list fault) }
{
    if let Some(fault) = fault {
        faults.push(fault)?;
    }
    Ok(())
}

// The faults of the first step.
fn name_faults<'a>(
    alloc: Global,
    namespaces: &[Annotated<'a, Namespace<'a>>],
) -> Result<Vec<ToJsonSchemaError>, AllocError>
    ensures { IfOk result (λ faults. faults.items ≡ filter_map name_fault namespaces.now) }
{
    let mut faults = Vec::new(alloc);
    for namespace in namespaces {
        let fault = name_fault(alloc, namespace)?;
        push_fault(&mut faults, fault)?;
    }
    Ok(faults)
}

// The fault of a name that is reserved.
fn reserved_id(alloc: Global, id: &Node<SrcId<'_>>) -> Result<Option<ToJsonSchemaError>, AllocError>
    ensures { IfOk result (λ fault. fault ≡ reserved_id id.now) }
{
    if !is_cedar(id.node.as_str()) {
        return Ok(None);
    }
    let fault = ReservedName {
        name: id_text(alloc, &id.node)?,
        loc: id.loc,
    };
    Ok(Some(ToJsonSchemaError::ReservedName(fault)))
}

// The fault of a common type that is named by one of the eight words that no common type may have for its name.
fn keyword(alloc: Global, id: &Node<SrcId<'_>>) -> Result<Option<ToJsonSchemaError>, AllocError>
    ensures { IfOk result (λ fault. fault ≡ keyword id.now) }
{
    if !is_keyword_name(id.node.as_str()) {
        return Ok(None);
    }
    let fault = ReservedSchemaKeyword {
        keyword: id_text(alloc, &id.node)?,
        loc: id.loc,
    };
    Ok(Some(ToJsonSchemaError::ReservedSchemaKeyword(fault)))
}

// The fault of a common type's name.
fn common_fault(
    alloc: Global,
    id: &Node<SrcId<'_>>,
) -> Result<Option<ToJsonSchemaError>, AllocError>
    ensures { IfOk result (λ fault. fault ≡ common_fault id.now) }
{
    match reserved_id(alloc, id)? {
        Some(fault) => Ok(Some(fault)),
        None => keyword(alloc, id),
    }
}

// The fault of an action declaration's block.
fn applies_fault<'s>(
    alloc: Global,
    names: &NonEmpty<Node<SrcStr<'s>>>,
    block: &Option<Node<NonEmpty<Node<AppDecl<'s>>>>>,
) -> Result<Option<ToJsonSchemaError>, AllocError>
    ensures { IfOk result (λ fault. fault ≡ applies_fault block.now names.now) }
{
    match block {
        None => Ok(None),
        Some(block) => block_fault(alloc, names.first(), &block.node),
    }
}

/// The fault of a declaration of actions.
pub fn action_fault(
    alloc: Global,
    decl: &Declaration<'_>,
) -> Result<Option<ToJsonSchemaError>, AllocError>
    ensures { IfOk result (λ fault. fault ≡ action_fault decl.now) }
{
    match decl {
        Declaration::Action(decl) => match decl.get() {
            ActionDecl::Defined(decl) => applies_fault(alloc, &decl.names, &decl.app_decls),
            ActionDecl::External(_) => Ok(None),
        },
        _ => Ok(None),
    }
}

// Adds the fault of each reserved name among those of the entity types that the declaration declares.
fn push_reserved(
    alloc: Global,
    faults: &mut Vec<ToJsonSchemaError>,
    decl: &Declaration<'_>,
) -> Result<(), AllocError>
    ensures { OnOk result (faults.new.items ≡ faults.old.items ++ filter_map reserved_id (entities_of decl.now)) }
{
    let Declaration::Entity(decl) = decl else {
        return Ok(());
    };
    for name in decl.names() {
        let fault = reserved_id(alloc, name)?;
        push_fault(faults, fault)?;
    }
    Ok(())
}

// All reserved names of entity types.
fn entity_faults<'a>(
    alloc: Global,
    decls: &[Annotated<'a, Node<Declaration<'a>>>],
) -> Result<Vec<ToJsonSchemaError>, AllocError>
    ensures { IfOk result (λ faults. faults.items ≡ entity_faults decls.now) }
{
    let mut faults = Vec::new(alloc);
    for decl in decls {
        push_reserved(alloc, &mut faults, &decl.item.node)?;
    }
    Ok(faults)
}

// The first fault of each declaration of actions.
fn action_faults<'a>(
    alloc: Global,
    decls: &[Annotated<'a, Node<Declaration<'a>>>],
) -> Result<Vec<ToJsonSchemaError>, AllocError>
    ensures { IfOk result (λ faults. faults.items ≡ action_faults decls.now) }
{
    let mut faults = Vec::new(alloc);
    for decl in decls {
        let fault = action_fault(alloc, &decl.item.node)?;
        push_fault(&mut faults, fault)?;
    }
    Ok(faults)
}

// The first fault of a common type's name.
fn first_common(
    alloc: Global,
    ids: Vec<&Node<SrcId<'_>>>,
) -> Result<Option<ToJsonSchemaError>, AllocError>
    ensures { IfOk result (λ fault. fault ≡ first_some common_fault (map (λ x. x.now) ids.entry.items)) }
{
    for id in ids {
        if let Some(fault) = common_fault(alloc, id)? {
            return Ok(Some(fault));
        }
    }
    Ok(None)
}

// The first fault of a common type's name, as a list.
fn common_faults(
    alloc: Global,
    ids: Vec<&Node<SrcId<'_>>>,
) -> Result<Vec<ToJsonSchemaError>, AllocError>
    ensures { IfOk result (λ faults. faults.items
        ≡ option_to_list (first_some common_fault (map (λ x. x.now) ids.entry.items))) }
{
    let fault = first_common(alloc, ids)?;
    let mut faults = Vec::new(alloc);
    push_fault(&mut faults, fault)?;
    Ok(faults)
}

// The faults of the second step in one namespace.
fn declaration_faults<'a>(
    alloc: Global,
    decls: &[Annotated<'a, Node<Declaration<'a>>>],
) -> Result<Vec<ToJsonSchemaError>, AllocError>
    ensures { IfOk result (λ faults. faults.items ≡ declaration_faults decls.now) }
{
    let faults = entity_faults(alloc, decls)?;
    if !faults.is_empty() {
        return Ok(faults);
    }
    let faults = action_faults(alloc, decls)?;
    if !faults.is_empty() {
        return Ok(faults);
    }
    let commons = common_names_in(alloc, decls)?;
    common_faults(alloc, commons)
}

// Adds faults.
fn push_faults(
    faults: &mut Vec<ToJsonSchemaError>,
    more: Vec<ToJsonSchemaError>,
) -> Result<(), AllocError>
    ensures { OnOk result (faults.new.items ≡ faults.old.items ++ more.items) }
{
    for fault in more {
        faults.push(fault)?;
    }
    Ok(())
}

// The faults of the second step in all namespaces.
fn all_declaration_faults<'a>(
    alloc: Global,
    namespaces: &[Annotated<'a, Namespace<'a>>],
) -> Result<Vec<ToJsonSchemaError>, AllocError>
    ensures { IfOk result (λ faults. faults.items ≡ all_declaration_faults namespaces.now) }
{
    let mut faults = Vec::new(alloc);
    for namespace in namespaces {
        let more = declaration_faults(alloc, namespace.item.decls.as_slice())?;
        push_faults(&mut faults, more)?;
    }
    Ok(faults)
}

/// What keeps these namespaces from being a fragment, in order; nothing where they are one.
pub fn faults_in<'a>(
    alloc: Global,
    namespaces: &[Annotated<'a, Namespace<'a>>],
) -> Result<Vec<ToJsonSchemaError>, AllocError>
    ensures { IfOk result (λ faults. faults.items ≡ faults_in namespaces.now) }
{
    let faults = name_faults(alloc, namespaces)?;
    if !faults.is_empty() {
        return Ok(faults);
    }
    all_declaration_faults(alloc, namespaces)
}
