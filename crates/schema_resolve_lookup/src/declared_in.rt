ghost use Rattle.std.specs.Prelude.{◌≡◌, true, map};
ghost use Rattle.std.specs.List.{list_any};
ghost use Rattle.std.specs.Result.{is_ok};
ghost use Rattle.std.specs.Str.{bytes_eq, encode_utf8_all};
ghost use Rattle.cedar_names.specs.Definitions.{among, among_actions};
ghost use Rattle.schema_resolve_definitions.specs.Declarations.{declared};
ghost use Rattle.schema_resolve_lookup.specs.Sought.{name_sought, is_some_list};

use crate::namespaces::{Searched, namespace_of};
use crate::near::Recent;
use crate::sought::Sought;
use cedar_data::{Map, Text, same_bytes};
use cedar_identifiers::{Id, RawName, UnreservedId};
use schema_json::{ActionType, CommonType, CommonTypeId, EntityType, NamespaceDefinition};
use std::cell::Cell;
use std::cmp::Ordering;

// Whether the fragment declares a common type of this name.
pub(crate) fn declares_common(searched: &Searched<'_>, sought: Sought<'_>) -> bool
    ensures { result ≡ among (declared searched.now.fragment.now).commons (name_sought sought.entry) }
{
    match namespace_of(searched, sought.namespace) {
        Some(definition) => {
            has_common(
                &definition.common_types,
                sought.last,
                &searched.recent_common,
            )
        },
        None => false,
    }
}

// Whether a common type has this word as its name: the one that was found last or the one behind it, or else found by
// halving.
fn has_common(
    commons: &Map<CommonTypeId, CommonType<RawName>>,
    word: &Id,
    recent: &Cell<usize>,
) -> bool
    ensures { result ≡ list_any (λ e. bytes_eq word.now.text e.0.id.id.text) commons.now }
{
    let entries = commons.as_slice();
    if has_common_near(entries, word, recent) {
        return true;
    }
    let found = entries.binary_search_by(|entry| entry.0.id.id.cmp(word));
    is_found(found, recent)
}

// Whether something was found, of which the place is kept.
fn is_found(found: Result<usize, usize>, recent: &Cell<usize>) -> bool
    ensures { result ≡ is_ok found }
{
    match found {
        Ok(at) => {
            recent.set(at);
            true
        }
        Err(_) => false,
    }
}

// Whether the common type that was found last or the one behind it has this word as its name.
fn has_common_near(
    entries: &[(CommonTypeId, CommonType<RawName>)],
    word: &Id,
    recent: &Cell<usize>,
) -> bool
    ensures { result ≡ true → list_any (λ e. bytes_eq word.now.text e.0.id.id.text) entries.now ≡ true }
{
    let at = recent.get();
    if at >= entries.len() {
        return false;
    }
    if is_common_at(entries, at, word) {
        return true;
    }
    let next = at.saturating_add(1);
    if is_common_at(entries, next, word) {
        recent.set(next);
        return true;
    }
    false
}

// Whether the common type at the place has this word as its name.
fn is_common_at(entries: &[(CommonTypeId, CommonType<RawName>)], at: usize, word: &Id) -> bool
    ensures { result ≡ true → list_any (λ e. bytes_eq word.now.text e.0.id.id.text) entries.now ≡ true }
{
    if at >= entries.len() {
        return false;
    }
    same_bytes(word.as_str(), entries[at].0.id.id.as_str())
}

// Whether the fragment declares an entity type of this name.
pub(crate) fn declares_entity(searched: &Searched<'_>, sought: Sought<'_>) -> bool
    ensures { result ≡ among (declared searched.now.fragment.now).entities (name_sought sought.entry) }
{
    match namespace_of(searched, sought.namespace) {
        Some(definition) => has_entity(
            &definition.entity_types,
            sought.last,
            &searched.recent_entities,
        ),
        None => false,
    }
}

// Whether an entity type has this word as its name, found by halving: near a recent place first.
fn has_entity(entities: &Map<UnreservedId, EntityType<RawName>>, word: &Id, recent: &Recent) -> bool
    ensures { result ≡ list_any (λ e. bytes_eq word.now.text e.0.id.text) entities.now }
{
    let entries = entities.as_slice();
    if has_entity_near(entries, word, recent) {
        return true;
    }
    match entries.binary_search_by(|entry| entry.0.id.cmp(word)) {
        Ok(at) => {
            recent.found(at);
            true
        }
        Err(_) => false,
    }
}

// Whether an entity type near the recent place has this word as its name.
fn has_entity_near(
    entries: &[(UnreservedId, EntityType<RawName>)],
    word: &Id,
    recent: &Recent,
) -> bool
    ensures { result ≡ true → list_any (λ e. bytes_eq word.now.text e.0.id.text) entries.now ≡ true }
{
    let (mut low, mut high) = recent.around(entries.len());
    while low < high {
        let middle = low + (high - low) / 2;
        match entries[middle].0.id.cmp(word) {
            Ordering::Less => low = middle + 1,
            Ordering::Greater => high = middle,
            Ordering::Equal => {
                recent.found(middle);
                return true;
            }
        }
    }
    false
}

// Whether the name is that of the type of an action that the fragment declares.
pub(crate) fn is_type_of_action(searched: &Searched<'_>, sought: Sought<'_>) -> bool
    ensures { result ≡ among (map (λ a. a.0) (declared searched.now.fragment.now).actions) (name_sought sought.entry) }
{
    same_bytes(sought.last.as_str(), "Action")
        && match namespace_of(searched, sought.namespace) {
            Some(definition) => has_actions(definition),
            None => false,
        }
}

// Whether the fragment declares the action with this id whose type has this name.
pub(crate) fn declares_action(searched: &Searched<'_>, sought: Sought<'_>, id: &Text) -> bool
    ensures { result ≡ among_actions (declared searched.now.fragment.now).actions (name_sought sought.entry, id.now) }
{
    same_bytes(sought.last.as_str(), "Action")
        && match namespace_of(searched, sought.namespace) {
            Some(definition) => has_action(&definition.actions, id),
            None => false,
        }
}

// Whether an action has this id, found by halving.
fn has_action(actions: &Map<Text, ActionType<RawName>>, id: &Text) -> bool
    ensures { result ≡ list_any (λ e. bytes_eq (encode_utf8_all id.now) (encode_utf8_all e.0)) actions.now }
{
    let entries = actions.as_slice();
    entries.binary_search_by(|entry| entry.0.cmp(id)).is_ok()
}

// Whether the namespace has an action.
fn has_actions(definition: &NamespaceDefinition<RawName>) -> bool
    ensures { result ≡ is_some_list definition.now.actions }
{
    !definition.actions.as_slice().is_empty()
}
