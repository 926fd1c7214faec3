ghost use Rattle.std.specs.Prelude.{◌≡◌, ◌<◌, ℕ, Vec, map, length, zip, All, IfOk, IfSome};
ghost use Rattle.std.specs.declared.alloc.Global.{Global as GlobalTold};
ghost use Rattle.cedar_identifiers.specs.declared.raw_name.RawName.{RawName as Raw};
ghost use Rattle.cedar_names.specs.declared.extension_table.ExtensionTable.{ExtensionTable as Table};
ghost use Rattle.schema_json.specs.declared.fragment.Fragment.{Fragment as Fragments};
ghost use Rattle.schema_build.specs.Assembly.{AreSharedOf, AreAt, AreAllAt, AreEntitiesBuilt, AreActionsBuilt};
ghost use Rattle.schema_build.specs.Assembly.{HoldEntities, HoldActions, assembled_entity_type, action_of_parts};

use cedar_data::{CloneIn, List, Map, Shared};
use cedar_identifiers::{Name, NameText, RawName};
use cedar_names::EntityUID;
use schema_build_hierarchy::{ActionEntry as DeclaredAction, EntityEntry as DeclaredEntity, Entry};
use schema_build_types::{
    ActionEntry, EntityTypeEntry, ValidatorActionId, ValidatorActionKind, ValidatorEntityType,
    ValidatorEntityTypeKind,
};
use std::alloc::{AllocError, Global};

// Which places stand in a row.
fn marks_of(alloc: Global, len: usize, rows: &[Vec<usize>]) -> Result<Vec<bool>, AllocError> {
    let mut marks = vec![in alloc; false; len]?;
    for row in rows {
        mark(&mut marks, row);
    }
    Ok(marks)
}

// Marks the places.
fn mark(marks: &mut Vec<bool>, places: &[usize]) {
    for &place in places {
        if place < marks.len() {
            marks[place] = true;
        }
    }
}

// The name, to be shared, where it is marked.
fn shared_where<K: CloneIn>(
    alloc: Global,
    name: &K,
    marked: bool,
) -> Result<Option<Shared<K>>, AllocError>
    ensures { IfOk result (λ shared. IfSome shared (λ n. n ≡ name.now)) }
{
    if marked {
        let name = name.clone_in(alloc)?;
        return Ok(Some(Shared::new(alloc, name)?));
    }
    Ok(None)
}

// The names that stand above another, to be shared, each at its place.
fn shared_names<K: CloneIn, T>(
    alloc: Global,
    entries: &[Entry<'_, K, T>],
    marks: &[bool],
) -> Result<Vec<Option<Shared<K>>>, AllocError>
    ensures { IfOk result (λ shared. AreSharedOf (map (λ e. e.name) entries.now) shared.items) }
{
    let mut shared = Vec::with_capacity(alloc, entries.len())?;
    for at in 0..entries.len() {
        let marked = at < marks.len() && marks[at];
        let name = shared_where(alloc, &entries[at].name, marked)?;
        shared.push(name)?;
    }
    Ok(shared)
}

// The name of the entry, shared.
fn name_of<K: CloneIn, T>(
    alloc: Global,
    entry: &Entry<'_, K, T>,
    shared: &Option<Shared<K>>,
) -> Result<Shared<K>, AllocError>
    requires { IfSome shared.now (λ n. n ≡ entry.now.name) }
    ensures { IfOk result (λ name. name ≡ entry.now.name) }
{
    match shared {
        Some(name) => name.clone_in(alloc),
        None => Shared::new(alloc, entry.name.clone_in(alloc)?),
    }
}

// The names at the places.
fn names_at<K: CloneIn, T>(
    alloc: Global,
    entries: &[Entry<'_, K, T>],
    shared: &[Option<Shared<K>>],
    places: &[usize],
) -> Result<List<Shared<K>>, AllocError>
    requires places { All (λ place. place < length entries.now) places.now }
    requires shared { AreSharedOf (map (λ e. e.name) entries.now) shared.now }
    ensures { IfOk result (AreAt (map (λ e. e.name) entries.now) places.now) }
{
    let mut found = Vec::with_capacity(alloc, places.len())?;
    for &place in places {
        found.push(name_of(alloc, &entries[place], &shared[place])?)?;
    }
    Ok(List::from_vec(found))
}

// The names at the places of each row.
fn all_names_at<K: CloneIn, T>(
    alloc: Global,
    entries: &[Entry<'_, K, T>],
    rows: &[Vec<usize>],
) -> Result<Vec<List<Shared<K>>>, AllocError>
    requires { All (λ (row : Vec ℕ GlobalTold). All (λ place. place < length entries.now) row.items) rows.now }
    ensures { IfOk result (λ lists. AreAllAt (map (λ e. e.name) entries.now) rows.now lists.items) }
{
    let marks = marks_of(alloc, entries.len(), rows)?;
    let shared = shared_names(alloc, entries, &marks)?;
    let mut lists = Vec::with_capacity(alloc, rows.len())?;
    for row in rows {
        lists.push(names_at(alloc, entries, &shared, row)?)?;
    }
    Ok(lists)
}

// What is put together of a declaration, its ancestors and what is built for it.
trait Assembled<D: Drop, A: Drop, K: Drop>: Drop {
    ghost use Rattle.std.specs.Prelude.{◌≡◌};

    ghost assembly: { (D × A) × K → Self };

    fn of(parts: ((D, A), K)) -> Self
        ensures { result ≡ assembly parts };
}

impl<'f> Assembled<DeclaredEntity<'f>, List<Shared<Name>>, ValidatorEntityTypeKind>
    for EntityTypeEntry {
    ghost assembly = { assembled_entity_type };

    fn of(
        parts: (
            (DeclaredEntity<'f>, List<Shared<Name>>),
            ValidatorEntityTypeKind,
        ),
    ) -> EntityTypeEntry
        ensures { result ≡ assembled_entity_type parts.entry }
    {
        let ((entry, ancestors), kind) = parts;
        EntityTypeEntry {
            name: entry.name,
            ty: ValidatorEntityType { ancestors, kind },
        }
    }
}

impl<'f> Assembled<DeclaredAction<'f>, List<Shared<EntityUID>>, ValidatorActionKind>
    for ActionEntry {
    ghost assembly = { action_of_parts };

    fn of(
        parts: (
            (DeclaredAction<'f>, List<Shared<EntityUID>>),
            ValidatorActionKind,
        ),
    ) -> ActionEntry
        ensures { result ≡ action_of_parts parts.entry }
    {
        let ((entry, ancestors), kind) = parts;
        ActionEntry {
            uid: entry.name,
            action: ValidatorActionId { ancestors, kind },
        }
    }
}

// The declarations, each put together with its ancestors and what is built for it.
fn put_together<D: Drop, A: Drop, K: Drop, B: Assembled<D, A, K>>(
    alloc: Global,
    entries: Vec<D>,
    ancestors: Vec<A>,
    kinds: Vec<K>,
) -> Result<Vec<B>, AllocError>
    ensures { IfOk result (λ built. built.items
        ≡ map B.assembly (zip (zip entries.items ancestors.items) kinds.items)) }
{
    let mut built = Vec::with_capacity(alloc, entries.len())?;
    for parts in entries.into_iter().zip(ancestors).zip(kinds) {
        built.push(B::of(parts))?;
    }
    Ok(built)
}

// The entity types of a fragment, from their declarations, the places of their ancestors and what is built for each.
pub(crate) fn entity_types(
    alloc: Global,
    entries: Vec<DeclaredEntity<'_>>,
    above: &[Vec<usize>],
    kinds: Vec<ValidatorEntityTypeKind>,
) -> Result<Vec<EntityTypeEntry>, AllocError>
    requires { All (λ (row : Vec ℕ GlobalTold). All (λ place. place < length entries.items) row.items) above.now }
    ensures { (f : Fragments Raw ⟦<RawName as NameText>⟧) (table : Table)
        → HoldEntities f table entries.entry.items above.now kinds.items
        → IfOk result (λ built. AreEntitiesBuilt f table built.items) }
{
    let ancestors = all_names_at(alloc, &entries, above)?;
    put_together(alloc, entries, ancestors, kinds)
}

// The actions of a fragment, from their declarations, the places of their ancestors and what is built for each.
pub(crate) fn actions(
    alloc: Global,
    entries: Vec<DeclaredAction<'_>>,
    above: &[Vec<usize>],
    kinds: Vec<ValidatorActionKind>,
) -> Result<Vec<ActionEntry>, AllocError>
    requires { All (λ (row : Vec ℕ GlobalTold). All (λ place. place < length entries.items) row.items) above.now }
    ensures { (f : Fragments Raw ⟦<RawName as NameText>⟧) (table : Table)
        → HoldActions f table entries.entry.items above.now kinds.items
        → IfOk result (λ built. AreActionsBuilt f table built.items) }
{
    let ancestors = all_names_at(alloc, &entries, above)?;
    put_together(alloc, entries, ancestors, kinds)
}

// The entries of a map of entity types.
pub(crate) fn entity_type_entries(
    alloc: Global,
    entity_types: Map<Name, ValidatorEntityType>,
) -> Result<Vec<EntityTypeEntry>, AllocError>
    ensures { IfOk result (λ entries. entries.items ≡ entity_types) }
{
    entity_types
        .into_vec()
        .into_iter()
        .map(|(name, ty)| EntityTypeEntry { name, ty })
        .collect(alloc)
}

// The entries of a map of actions.
pub(crate) fn action_entries(
    alloc: Global,
    actions: Map<EntityUID, ValidatorActionId>,
) -> Result<Vec<ActionEntry>, AllocError>
    ensures { IfOk result (λ entries. entries.items ≡ actions) }
{
    actions
        .into_vec()
        .into_iter()
        .map(|(uid, action)| ActionEntry { uid, action })
        .collect(alloc)
}
