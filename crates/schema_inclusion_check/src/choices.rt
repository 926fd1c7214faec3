ghost use Rattle.std.specs.Prelude.{◌≡◌, IfOk};
ghost use Rattle.std.specs.Option.{option_copied, option_map};
ghost use Rattle.schema_inclusion_values.specs.Ids.{has_text, unused, letters, lost_choice, lost_id, first_id};
ghost use Rattle.schema_inclusion_values.specs.Lost.{first_refused};
ghost use Rattle.schema_inclusion_check.specs.Parts.{ids_of};
ghost use Rattle.schema_inclusion_check.specs.Told.{texts_now};

use crate::missing::first_missing;
use cedar_data::{CloneIn, NonEmpty, Text};
use cedar_identifiers::Eid;
use schema_inclusion_types::same_text;
use schema_inclusion_values::laws::some_text_is_unused;
use std::alloc::{AllocError, Global};

// Whether the id is one of these.
fn has_text(ids: &[&Text], id: &Text) -> bool
    ensures { result ≡ has_text (texts_now ids.now) id.now }
{
    for other in ids {
        if same_text(other, id) {
            return true;
        }
    }
    false
}

// Whether the id is one of the choices.
fn has_choice(choices: &NonEmpty<Eid>, id: &Text) -> bool
    ensures { result ≡ has_text (ids_of choices.now) id.now }
{
    for choice in choices.iter() {
        if same_text(&choice.0, id) {
            return true;
        }
    }
    false
}

// The least of the empty text, `a`, `aa`, .. that is none of these ids.
fn unused_id(alloc: Global, ids: &[&Text]) -> Result<Text, AllocError>
    ensures { IfOk result (λ id. id ≡ letters (unused (texts_now ids.now))) }
{
    some_text_is_unused();
    let mut id = Text::new(alloc);
    while has_text(ids, &id) {
        id.push_str("a")?;
    }
    Ok(id)
}

// The first of the old ids that is no new one.
fn lost_choice<'a>(old: &[&'a Text], new: &[&'a Text]) -> Option<&'a Text>
    ensures { option_copied result ≡ lost_choice (texts_now old.now) (texts_now new.now) }
{
    match first_missing(old, new) {
        Some(id) => Some(*id),
        None => None,
    }
}

/// An id that the old ids allow and the new ones do not. Where there are no ids, any is allowed.
pub fn lost_id(
    alloc: Global,
    old: &Option<Vec<&Text>>,
    new: &Option<Vec<&Text>>,
) -> Result<Option<Text>, AllocError>
    ensures { IfOk result (λ found. found ≡ lost_id (option_map (λ v. texts_now v.items) old.now)
        (option_map (λ v. texts_now v.items) new.now)) }
{
    match new {
        None => Ok(None),
        Some(new) => match old {
            None => Ok(Some(unused_id(alloc, new.as_slice())?)),
            Some(old) => match lost_choice(old.as_slice(), new.as_slice()) {
                None => Ok(None),
                Some(id) => Ok(Some(id.clone_in(alloc)?)),
            },
        },
    }
}

// The ids of the choices, lent.
pub(crate) fn lend_ids<'a>(
    alloc: Global,
    choices: &'a NonEmpty<Eid>,
) -> Result<Vec<&'a Text>, AllocError>
    ensures { IfOk result (λ ids. texts_now ids.items ≡ ids_of choices.now) }
{
    let mut ids = Vec::new(alloc);
    for choice in choices.iter() {
        ids.push(&choice.0)?;
    }
    Ok(ids)
}

// The ids of the choices, where there are choices.
fn lend_choices<'a>(
    alloc: Global,
    choices: Option<&'a NonEmpty<Eid>>,
) -> Result<Option<Vec<&'a Text>>, AllocError>
    ensures { IfOk result (λ ids. option_map (λ v. texts_now v.items) ids
        ≡ option_map ids_of (option_copied choices.entry)) }
{
    match choices {
        None => Ok(None),
        Some(choices) => Ok(Some(lend_ids(alloc, choices)?)),
    }
}

/// An id that the old choices allow and the new ones do not.
pub fn lost_choices(
    alloc: Global,
    old: Option<&NonEmpty<Eid>>,
    new: Option<&NonEmpty<Eid>>,
) -> Result<Option<Text>, AllocError>
    ensures { IfOk result (λ found. found ≡ lost_id (option_map ids_of (option_copied old.entry))
        (option_map ids_of (option_copied new.entry))) }
{
    let old = lend_choices(alloc, old)?;
    let new = lend_choices(alloc, new)?;
    lost_id(alloc, &old, &new)
}

/// The first choice; the empty text where there are no choices.
pub fn first_id(alloc: Global, choices: Option<&NonEmpty<Eid>>) -> Result<Text, AllocError>
    ensures { IfOk result (λ id. id ≡ first_id (option_map ids_of (option_copied choices.entry))) }
{
    match choices {
        None => Ok(Text::new(alloc)),
        Some(choices) => choices.first().0.clone_in(alloc),
    }
}

/// The first of the old choices, where it is no new one.
pub fn first_refused(
    alloc: Global,
    old: Option<&NonEmpty<Eid>>,
    new: Option<&NonEmpty<Eid>>,
) -> Result<Option<Text>, AllocError>
    ensures { IfOk result (λ found. found ≡ first_refused (first_id (option_map ids_of (option_copied old.entry)))
        (option_map ids_of (option_copied new.entry))) }
{
    match new {
        None => Ok(None),
        Some(choices) => {
            let id = first_id(alloc, old)?;
            if has_choice(choices, &id) {
                Ok(None)
            } else {
                Ok(Some(id))
            }
        }
    }
}
