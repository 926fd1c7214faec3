ghost use Rattle.std.specs.Prelude.{◌≡◌, true, [], List, IfOk, IfErr, IfSome};
ghost use Rattle.cedar_names.specs.declared.extension_table.ExtensionTable.{ExtensionTable};
ghost use Rattle.schema_syntax_parser.specs.Syntax.{AreAnnotations, IsPath, IsDeclared};
ghost use Rattle.schema_syntax_reader.specs.Placed.{IsScanned};
ghost use Rattle.schema_syntax_reader.specs.Sites.{declared_sites};
ghost use Rattle.schema_syntax_reader.specs.Stops.{IsStopped};
ghost use Rattle.schema_syntax_tree.specs.declared.annotated.Annotated.{Annotated};
ghost use Rattle.schema_syntax_tree.specs.declared.namespace.Namespace.{Namespace};
ghost use Rattle.schema_convert_plain.specs.Gathered.{AddsRead, IsGatheredAs, AddsOutside, AddsNamed, AddsNamespace};
ghost use Rattle.schema_convert_plain.specs.Gathered.{AddsOwn, IsOwn, IsGatheredOf, named_sites};
ghost use Rattle.schema_convert_plain.specs.Plain.{AreUnlike, HasRisingNotes};
ghost use Rattle.schema_convert_openings.specs.Joined.{named};
ghost use Rattle.schema_convert_plain.specs.Translation.{IsTranslation};
ghost use Rattle.std.specs.List.{All, AllByRecursion, flat_map};

use crate::plain::is_plain;
use cedar_data::{List, Node};
use cedar_identifiers::{Annotations, Name, RawName};
use cedar_names::ExtensionTable;
use schema_convert_faults::faults::is_reserved_path;
use schema_convert_fragments::{
    Entries, declared_key, definition_from, fragment_from, push_declared,
};
use schema_json::{Fragment, NamespaceDefinition};
use schema_syntax_parser::{AnnotationSyntax, DeclSyntax, DeclaredSyntax, PathSyntax};
use schema_syntax_reader::names::notes;
use schema_syntax_reader::paths::path;
use schema_syntax_reader::{Stopped, declared};
use schema_syntax_tree::{Annotated, Declaration};
use std::alloc::{AllocError, Global};

/// What the items of a text define, as they are read: the namespaces, and what stands outside of these.
#[derive(Drop)]
pub struct Gathered {
    namespaces: Vec<(Option<Name>, NamespaceDefinition<RawName>)>,
    outside: Entries,
    has_outside: bool,
}

impl Gathered {
    /// What no item defines.
    pub fn new(alloc: Global) -> Gathered
        ensures { (table : ExtensionTable) → IsGatheredOf table [] result }
    {
        Gathered {
            namespaces: Vec::new(alloc),
            outside: Entries::new(alloc),
            has_outside: false,
        }
    }
}

// Nothing, with room for one entry of each declaration.
fn entries_for(alloc: Global, raws: &[DeclaredSyntax]) -> Result<Entries, AllocError>
    ensures commons { IfOk result (λ entries. entries.commons.items ≡ []) }
    ensures entities { IfOk result (λ entries. entries.entities.items ≡ []) }
    ensures actions { IfOk result (λ entries. entries.actions.items ≡ []) }
{
    let mut commons = 0usize;
    let mut entities = 0usize;
    let mut actions = 0usize;
    for raw in raws {
        match raw.decl {
            DeclSyntax::Entity { .. }
            | DeclSyntax::Enum { .. }
            | DeclSyntax::ExternalEntity { .. } => entities = entities.saturating_add(1),
            DeclSyntax::Action { .. } | DeclSyntax::ExternalAction { .. } => {
                actions = actions.saturating_add(1)
            }
            DeclSyntax::Common { .. } => commons = commons.saturating_add(1),
        }
    }
    Ok(Entries {
        commons: Vec::with_capacity(alloc, commons)?,
        entities: Vec::with_capacity(alloc, entities)?,
        actions: Vec::with_capacity(alloc, actions)?,
    })
}

// Adds what the declarations declare, each once it is read, where each of them is plain.
fn push_read(
    alloc: Global,
    text: &str,
    table: &ExtensionTable,
    entries: &mut Entries,
    raws: List<DeclaredSyntax>,
) -> Result<bool, Stopped>
    requires { All (IsScanned IsDeclared text.now) raws }
    ensures added { IfOk result (λ plain. plain ≡ true → AddsRead text.now table.now raws entries.old entries.new) }
    ensures fault { IfErr result (IsStopped text.now (flat_map declared_sites raws)) }
{
    for raw in raws.into_vec() {
        let decl = declared(alloc, text, raw)?;
        if !is_plain(alloc, table, &decl.item.node)? {
            return Ok(false);
        }
        push_declared(alloc, entries, &decl)?;
    }
    Ok(true)
}

// Whether no common type has the name of an entity type.
fn are_apart(definition: &NamespaceDefinition<RawName>) -> bool
    ensures { result ≡ true → AreUnlike definition.now.common_types definition.now.entity_types }
{
    let commons = definition.common_types.as_slice();
    for entry in commons {
        if definition.entity_types.get(&entry.0.id).is_some() {
            return false;
        }
    }
    true
}

// What a namespace with these entries and annotations defines, where no name stands twice among them.
fn own_definition(
    alloc: Global,
    entries: Entries,
    annotations: Annotations,
) -> Result<Option<NamespaceDefinition<RawName>>, AllocError>
    ensures { IfOk result (λ found. IfSome found (IsOwn entries annotations)) }
{
    let commons = entries.commons.len();
    let entities = entries.entities.len();
    let actions = entries.actions.len();
    let definition = definition_from(alloc, entries, annotations)?;
    if definition.common_types.as_slice().len() < commons
        || definition.entity_types.as_slice().len() < entities
        || definition.actions.as_slice().len() < actions
        || !are_apart(&definition)
    {
        return Ok(None);
    }
    Ok(Some(definition))
}

/// Adds what a declaration defines that stands outside of every namespace, where nothing is to be said of it.
pub fn push_outside<'a>(
    alloc: Global,
    table: &ExtensionTable,
    gathered: &mut Gathered,
    decl: &Annotated<'a, Node<Declaration<'a>>>,
) -> Result<bool, AllocError>
    ensures { IfOk result (λ plain. plain ≡ true → AddsOutside table.now gathered.old gathered.new decl.now) }
{
    if !is_plain(alloc, table, &decl.item.node)? {
        return Ok(false);
    }
    gathered.has_outside = true;
    push_declared(alloc, &mut gathered.outside, decl)?;
    Ok(true)
}

// What a named namespace of these declarations and annotations defines, where nothing is to be said of it.
fn read_definition(
    alloc: Global,
    text: &str,
    table: &ExtensionTable,
    raws: List<DeclaredSyntax>,
    annotations: Annotations,
) -> Result<Option<NamespaceDefinition<RawName>>, Stopped>
    requires { All (IsScanned IsDeclared text.now) raws }
    ensures found { IfOk result (λ found. IfSome found (IsGatheredAs text.now table.now raws annotations)) }
    ensures fault { IfErr result (IsStopped text.now (flat_map declared_sites raws)) }
{
    let mut entries = entries_for(alloc, raws.as_slice())?;
    if !push_read(alloc, text, table, &mut entries, raws)? {
        return Ok(None);
    }
    let definition = own_definition(alloc, entries, annotations)?;
    Ok(definition)
}

// Adds the named namespace, where nothing is to be said of it.
fn push_named(
    alloc: Global,
    text: &str,
    table: &ExtensionTable,
    namespaces: &mut Vec<(Option<Name>, NamespaceDefinition<RawName>)>,
    list: List<AnnotationSyntax>,
    name: PathSyntax,
    raws: List<DeclaredSyntax>,
) -> Result<bool, Stopped>
    requires list { IsScanned AreAnnotations text.now list }
    requires name { IsScanned IsPath text.now name }
    requires raws { All (IsScanned IsDeclared text.now) raws }
    ensures added { IfOk result (λ plain. plain ≡ true
        → AddsNamed text.now table.now list name raws namespaces.old.items namespaces.new.items) }
    ensures fault { IfErr result (IsStopped text.now (named_sites list name raws)) }
{
    let noted = notes(alloc, text, list.as_slice())?;
    let path = path(alloc, text, name)?;
    if is_reserved_path(&path) {
        return Ok(false);
    }
    let annotations = noted.to_annotations(alloc)?;
    let Some(definition) = read_definition(alloc, text, table, raws, annotations)? else {
        return Ok(false);
    };
    let Some(key) = declared_key(alloc, &path)? else {
        return Ok(false);
    };
    namespaces.push((Some(key), definition))?;
    Ok(true)
}

/// Adds what a namespace that has a name defines, where nothing is to be said of it: from its annotations, its path and
/// its declarations. Or of its user faults the one that ends first.
pub fn push_namespace(
    alloc: Global,
    text: &str,
    table: &ExtensionTable,
    gathered: &mut Gathered,
    list: List<AnnotationSyntax>,
    name: PathSyntax,
    raws: List<DeclaredSyntax>,
) -> Result<bool, Stopped>
    requires list { IsScanned AreAnnotations text.now list }
    requires name { IsScanned IsPath text.now name }
    requires raws { All (IsScanned IsDeclared text.now) raws }
    ensures added { IfOk result (λ plain. plain ≡ true
        → AddsNamespace text.now table.now list name raws gathered.old gathered.new) }
    ensures fault { IfErr result (IsStopped text.now (named_sites list name raws)) }
{
    push_named(
        alloc,
        text,
        table,
        &mut gathered.namespaces,
        list,
        name,
        raws,
    )
}

// The entries of the namespaces, and of what stands outside of these, where something does and no name stands twice
// there.
fn with_outside(
    alloc: Global,
    mut namespaces: Vec<(Option<Name>, NamespaceDefinition<RawName>)>,
    outside: Entries,
    has_outside: bool,
) -> Result<Option<Vec<(Option<Name>, NamespaceDefinition<RawName>)>>, AllocError>
    ensures { IfOk result (λ found. IfSome found (λ all. AddsOwn has_outside outside namespaces.items all.items)) }
{
    if !has_outside {
        return Ok(Some(namespaces));
    }
    let Some(definition) = own_definition(alloc, outside, Annotations::new(alloc))? else {
        return Ok(None);
    };
    namespaces.push((None, definition))?;
    Ok(Some(namespaces))
}

/// The fragment of what was gathered, where no namespace was opened twice and nothing is to be said of what stands
/// outside of every one.
pub fn gathered_fragment(
    alloc: Global,
    gathered: Gathered,
) -> Result<Option<Fragment<RawName>>, AllocError>
    ensures { IfOk result (λ found. IfSome found
        (λ fragment. (table : ExtensionTable) (tree : List (Annotated Namespace)) → IsGatheredOf table tree gathered
        → AllByRecursion HasRisingNotes (named tree) → IsTranslation tree table fragment [])) }
{
    let Gathered {
        namespaces,
        outside,
        has_outside,
    } = gathered;
    let Some(entries) = with_outside(alloc, namespaces, outside, has_outside)? else {
        return Ok(None);
    };
    let count = entries.len();
    let fragment = fragment_from(alloc, entries)?;
    if fragment.0.as_slice().len() < count {
        return Ok(None);
    }
    Ok(Some(fragment))
}
