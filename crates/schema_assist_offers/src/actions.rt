// The ids of actions, as they are written.

ghost use Rattle.std.specs.Prelude.{◌≡◌, ◌++◌, OnOk, IfOk, List, ℕ, nat_eq, codes};
ghost use Rattle.std.specs.List.{flat_map, starts_with};
ghost use Rattle.std.specs.Str.{chars};
ghost use Rattle.cedar_identifiers.specs.Words.{is_id};
ghost use Rattle.cedar_names.specs.CanonicalText.{attribute_name};
ghost use Rattle.schema_assist_offers.specs.Spellings.{kept, spelled_action, IsWordOrNothing};
ghost use Rattle.schema_assist_offers.specs.Homes.{IsHome, question};

use crate::asked::{Asked, begins};
use crate::homes::Home;
use cedar_data::{CloneIn, Map, Text, is_word};
use cedar_identifiers::{Id, RawName, is_reserved};
use schema_json::ActionType;
use schema_json::action_uid::action_name;
use schema_syntax_tokens::push_quoted;
use std::alloc::{AllocError, Global};

// Whether the id may stand without quotes.
fn is_bare(id: &Text) -> bool
    ensures { result ≡ is_id id.now }
{
    let id = id.as_str();
    is_word(id) && !is_reserved(id)
}

// The id as it is written.
fn written_id(alloc: Global, id: &Text, is_bare: bool) -> Result<Text, AllocError>
    requires { is_bare ≡ is_id id.now }
    ensures { IfOk result (λ text. text ≡ chars (attribute_name id.now)) }
{
    if is_bare {
        return id.clone_in(alloc);
    }
    let mut text = Text::new(alloc);
    push_quoted(&mut text, id.as_str())?;
    Ok(text)
}

// Whether the id as it is written begins so: one in quotes begins with no word.
fn begins_written(front: &str, id: &Text, is_bare: bool) -> bool
    requires word { IsWordOrNothing front.now }
    requires bare { is_bare ≡ is_id id.now }
    ensures { result ≡ starts_with nat_eq (chars (attribute_name id.now)) front.now }
{
    if is_bare {
        return begins(id.as_str(), front);
    }
    front.is_empty()
}

// Adds the id as it is written, where it begins so.
fn push_id(alloc: Global, names: &mut Vec<Text>, front: &str, id: &Text) -> Result<(), AllocError>
    requires { IsWordOrNothing front.now }
    ensures { OnOk result (names.new.items ≡ names.old.items ++ kept front.now (chars (attribute_name id.now))) }
{
    let is_bare = is_bare(id);
    if begins_written(front, id, is_bare) {
        names.push(written_id(alloc, id, is_bare)?)?;
    }
    Ok(())
}

// Adds the action's id, where a reference by its id means it.
fn push_action(
    alloc: Global,
    names: &mut Vec<Text>,
    asked: &Asked<'_, '_>,
    home: &Home<'_>,
    action: &Id,
    id: &Text,
) -> Result<(), AllocError>
    requires word { action.now.text ≡ codes "Action" }
    requires front { IsWordOrNothing asked.now.front.now }
    ensures { (before : List (List ℕ)) → IsHome (question asked.now).ns (question asked.now).front before home.now
        → OnOk result (names.new.items ≡ names.old.items ++ spelled_action (question asked.now) before id.now) }
{
    match home {
        Home::Own => push_id(alloc, names, asked.front, id),
        Home::Outer(around) => {
            if asked.defs.is_defined_as_action_behind(around, action, id) {
                return Ok(());
            }
            push_id(alloc, names, asked.front, id)
        }
        Home::Other(_) => Ok(()),
        Home::Unlike => Ok(()),
    }
}

// Adds the ids of the actions, as they are written.
pub(crate) fn push_actions(
    alloc: Global,
    names: &mut Vec<Text>,
    asked: &Asked<'_, '_>,
    home: &Home<'_>,
    actions: &Map<Text, ActionType<RawName>>,
) -> Result<(), AllocError>
    requires { IsWordOrNothing asked.now.front.now }
    ensures { (before : List (List ℕ)) → IsHome (question asked.now).ns (question asked.now).front before home.now
        → OnOk result (names.new.items ≡ names.old.items
        ++ flat_map (λ e. spelled_action (question asked.now) before e.0) actions.now) }
{
    let action = action_name(alloc)?;
    for (id, _) in actions.as_slice() {
        push_action(alloc, names, asked, home, &action.first, id)?;
    }
    Ok(())
}
