// Names that end in a word, as they are spelled.

ghost use Rattle.std.specs.Prelude.{◌≡◌, ◌++◌, OnOk, List, ℕ};
ghost use Rattle.std.specs.List.{flat_map};
ghost use Rattle.schema_resolve_lookup.specs.Sought.{is_some_list};
ghost use Rattle.schema_assist_offers.specs.Spellings.{kept, spelled, spelled_type};
ghost use Rattle.schema_assist_offers.specs.Homes.{IsHome, question};

use crate::asked::{Asked, begins};
use crate::homes::{Home, is_defined_behind};
use cedar_data::{CloneIn, Map, Text};
use cedar_identifiers::{Id, RawName, ReferenceType, UnreservedId};
use schema_json::action_uid::action_name;
use schema_json::{ActionType, CommonType, CommonTypeId, EntityType};
use std::alloc::{AllocError, Global};

// Adds the word, where it begins so.
fn push_kept(alloc: Global, names: &mut Vec<Text>, front: &str, word: &Id) -> Result<(), AllocError>
    ensures { OnOk result (names.new.items ≡ names.old.items ++ kept front.now word.now.text) }
{
    if begins(word.as_str(), front) {
        names.push(word.text.clone_in(alloc)?)?;
    }
    Ok(())
}

// Adds the name that ends in the word, as it is spelled.
pub(crate) fn push_word(
    alloc: Global,
    names: &mut Vec<Text>,
    asked: &Asked<'_, '_>,
    kind: ReferenceType,
    home: &Home<'_>,
    word: &Id,
) -> Result<(), AllocError>
    ensures { (before : List (List ℕ)) → IsHome (question asked.now).ns (question asked.now).front before home.now
        → OnOk result (names.new.items ≡ names.old.items ++ spelled (question asked.now) kind before word.now.text) }
{
    match home {
        Home::Own => push_kept(alloc, names, asked.front, word),
        Home::Outer(around) => {
            if is_defined_behind(asked.defs, kind, around, word) {
                return Ok(());
            }
            push_kept(alloc, names, asked.front, word)
        }
        Home::Other(text) => {
            let mut name = text.clone_in(alloc)?;
            name.push_text(&word.text)?;
            names.push(name)?;
            Ok(())
        }
        Home::Unlike => Ok(()),
    }
}

// Adds the entity types, each as it is spelled.
pub(crate) fn push_entities(
    alloc: Global,
    names: &mut Vec<Text>,
    asked: &Asked<'_, '_>,
    kind: ReferenceType,
    home: &Home<'_>,
    entities: &Map<UnreservedId, EntityType<RawName>>,
) -> Result<(), AllocError>
    ensures { (before : List (List ℕ)) → IsHome (question asked.now).ns (question asked.now).front before home.now
        → OnOk result (names.new.items ≡ names.old.items
        ++ flat_map (λ e. spelled (question asked.now) kind before e.0.id.text) entities.now) }
{
    for (id, _) in entities.as_slice() {
        push_word(alloc, names, asked, kind, home, &id.id)?;
    }
    Ok(())
}

// Adds the common types, each as it is spelled.
pub(crate) fn push_commons(
    alloc: Global,
    names: &mut Vec<Text>,
    asked: &Asked<'_, '_>,
    kind: ReferenceType,
    home: &Home<'_>,
    commons: &Map<CommonTypeId, CommonType<RawName>>,
) -> Result<(), AllocError>
    ensures { (before : List (List ℕ)) → IsHome (question asked.now).ns (question asked.now).front before home.now
        → OnOk result (names.new.items ≡ names.old.items
        ++ flat_map (λ e. spelled (question asked.now) kind before e.0.id.id.text) commons.now) }
{
    for (id, _) in commons.as_slice() {
        push_word(alloc, names, asked, kind, home, &id.id.id)?;
    }
    Ok(())
}

// Whether there are actions.
fn has_actions(actions: &Map<Text, ActionType<RawName>>) -> bool
    ensures { result ≡ is_some_list actions.now }
{
    !actions.as_slice().is_empty()
}

// Adds the type of the actions, where there are any, as it is spelled.
pub(crate) fn push_action_type(
    alloc: Global,
    names: &mut Vec<Text>,
    asked: &Asked<'_, '_>,
    home: &Home<'_>,
    actions: &Map<Text, ActionType<RawName>>,
) -> Result<(), AllocError>
    ensures { (before : List (List ℕ)) → IsHome (question asked.now).ns (question asked.now).front before home.now
        → OnOk result (names.new.items ≡ names.old.items ++ spelled_type (question asked.now) before actions.now) }
{
    if !has_actions(actions) {
        return Ok(());
    }
    let action = action_name(alloc)?;
    let kind = ReferenceType::CommonOrEntity;
    push_word(alloc, names, asked, kind, home, &action.first)
}
