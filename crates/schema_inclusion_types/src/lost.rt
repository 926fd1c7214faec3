ghost use Rattle.std.specs.Prelude.{◌≡◌, IfOk, Option};
ghost use Rattle.std.specs.Option.{option_copied, option_map};
ghost use Rattle.cedar_identifiers.specs.Names.{components_of};
ghost use Rattle.cedar_names.specs.Meaning.{PlainType, no_more};
ghost use Rattle.schema_inclusion_values.specs.Checks.{lost_value, all_required};
ghost use Rattle.schema_inclusion_values.specs.Seen.{value_of, entries_value};
ghost use Rattle.schema_inclusion_values.specs.Values.{Text as Letters, Name as Words, Rec, Set, Ref, val, no_vals};
ghost use Rattle.schema_inclusion_types.specs.Ids.{id_in, lost_in};
ghost use Rattle.schema_inclusion_types.specs.Kinds.{plain, plain_attrs, kind_type, AreSorted, AreKindSorted};
ghost use Rattle.schema_inclusion_types.specs.LostAttributes.{is_marked, lost_to};

use crate::ids::Ids;
use crate::kinds::{Kind, element_kind, kind_of};
use crate::names::{first_name, same_name, same_word};
use crate::seek::seek;
use crate::some::{entries_with, some_entity, some_entries, some_value};
use cedar_data::{CloneIn, List, Text};
use cedar_identifiers::{Name, UnreservedId};
use schema_build_types::Type;
use schema_inclusion_values::Val;
use std::alloc::{AllocError, Global};

// Whether an attribute is found that is required.
fn is_marked(found: Option<&(Type, bool)>) -> bool
    ensures { result ≡ is_marked (option_copied found.entry) }
{
    match found {
        Some((_, required)) => *required,
        None => false,
    }
}

// Whether each attribute that the new ones require is one that the old ones require.
fn all_required(old: &[(Text, (Type, bool))], new: &[(Text, (Type, bool))]) -> bool
    requires old_sorted { AreSorted old.now }
    requires new_sorted { AreSorted new.now }
    ensures { result ≡ all_required (plain_attrs old.now) (plain_attrs new.now) }
{
    let mut next = 0;
    for (name, (_, required)) in new {
        if *required {
            let (place, found) = seek(old, next, name);
            if !is_marked(found) {
                return false;
            }
            next = place;
        }
    }
    true
}

// A truth value that the new kind has not.
fn lost_truth(new: &Kind<'_>) -> Option<Val>
    ensures { (id_of : Words → Letters) (lost : Words → Option Letters)
        → option_map value_of result ≡ lost_value id_of lost PlainType.Bool (kind_type new.now) }
{
    match new {
        Kind::Bool => None,
        _ => Some(Val::Bool(false)),
    }
}

// A number that the new kind has not.
fn lost_number(new: &Kind<'_>) -> Option<Val>
    ensures { (id_of : Words → Letters) (lost : Words → Option Letters)
        → option_map value_of result ≡ lost_value id_of lost PlainType.Long (kind_type new.now) }
{
    match new {
        Kind::Long => None,
        _ => Some(Val::Long(0)),
    }
}

// A text that the new kind has not.
fn lost_text(alloc: Global, new: &Kind<'_>) -> Option<Val>
    ensures { (id_of : Words → Letters) (lost : Words → Option Letters)
        → option_map value_of result ≡ lost_value id_of lost PlainType.String (kind_type new.now) }
{
    match new {
        Kind::Str => None,
        _ => Some(Val::Str(Text::new(alloc))),
    }
}

// The value of the extension type, where the new kind has it not.
fn lost_extension(
    alloc: Global,
    old: &UnreservedId,
    new: &Kind<'_>,
) -> Result<Option<Val>, AllocError>
    ensures { IfOk result (λ found. (id_of : Words → Letters) (lost : Words → Option Letters)
        → option_map value_of found ≡ lost_value id_of lost (PlainType.Ext old.now.id.text) (kind_type new.now)) }
{
    if let Kind::Ext(name) = new {
        if same_word(old, name) {
            return Ok(None);
        }
    }
    Ok(Some(Val::Ext(old.clone_in(alloc)?)))
}

// An entity of the old type that the new kind has not.
fn lost_entity(
    alloc: Global,
    ids: &Ids,
    old: &Name,
    new: &Kind<'_>,
) -> Result<Option<Val>, AllocError>
    ensures { IfOk result (λ lost. option_map value_of lost ≡ lost_value (id_in ids.now.rows) (lost_in ids.now.rows)
        (PlainType.Entity (components_of old.now.name)) (kind_type new.now)) }
{
    if let Kind::Entity(name) = new {
        if same_name(old, name) {
            return lost_of_type(alloc, ids, old);
        }
    }
    Ok(Some(some_entity(alloc, ids, old)?))
}

// The entity of the type with the id that the new schema has not.
fn lost_of_type(alloc: Global, ids: &Ids, name: &Name) -> Result<Option<Val>, AllocError>
    ensures { IfOk result (λ lost. option_map value_of lost ≡ option_map (λ id. Ref (components_of name.now.name) id)
        (lost_in ids.now.rows (components_of name.now.name))) }
{
    match ids.lost(name) {
        None => Ok(None),
        Some(id) => {
            let id = id.clone_in(alloc)?;
            Ok(Some(Val::Ref(name.clone_in(alloc)?, id)))
        }
    }
}

// The empty record, where the new kind has it not.
fn lost_empty(alloc: Global, new: &Kind<'_>) -> Option<Val>
    requires { AreKindSorted new.now }
    ensures { (id_of : Words → Letters) (lost : Words → Option Letters)
        → option_map value_of result ≡ lost_value id_of lost (PlainType.Rec no_more) (kind_type new.now) }
{
    if let Kind::Rec(attrs) = new {
        if all_required(&[], attrs) {
            return None;
        }
    }
    Some(Val::Rec(List::new(alloc)))
}

// A set of this one value, where there is one.
fn one_member(alloc: Global, member: Option<Val>) -> Result<Option<Val>, AllocError>
    ensures { IfOk result (λ set. option_map value_of set
        ≡ option_map (λ v. Set (val v no_vals)) (option_map value_of member)) }
{
    match member {
        None => Ok(None),
        Some(value) => {
            let mut members = List::new(alloc);
            members.push(value)?;
            Ok(Some(Val::Set(members)))
        }
    }
}

// A set of empty records that the new kind has not.
fn lost_unknown(alloc: Global, new: &Kind<'_>) -> Result<Option<Val>, AllocError>
    requires { AreKindSorted new.now }
    ensures { IfOk result (λ found. (id_of : Words → Letters) (lost : Words → Option Letters)
        → option_map value_of found
        ≡ lost_value id_of lost (PlainType.Set (PlainType.Rec no_more)) (kind_type new.now)) }
{
    match new {
        Kind::Set(element) => one_member(alloc, lost_empty(alloc, &element_kind(*element))),
        _ => Ok(Some(Val::Set(List::new(alloc)))),
    }
}

// A set of the old type that the new kind has not.
#[cycle(lost)]
fn lost_set(alloc: Global, ids: &Ids, old: &Type, new: &Kind<'_>) -> Result<Option<Val>, AllocError>
    requires { AreKindSorted new.now }
    ensures { IfOk result (λ lost. option_map value_of lost ≡ lost_value (id_in ids.now.rows) (lost_in ids.now.rows)
        (PlainType.Set (plain old.now)) (kind_type new.now)) }
{
    match new {
        Kind::Set(element) => {
            let element = element_kind(*element);
            one_member(alloc, lost_to_kind(alloc, ids, old, &element)?)
        }
        _ => Ok(Some(Val::Set(List::new(alloc)))),
    }
}

// A record with the old attributes that the new kind has not.
#[cycle(lost)]
fn lost_attributes(
    alloc: Global,
    ids: &Ids,
    old: &[(Text, (Type, bool))],
    new: &Kind<'_>,
) -> Result<Option<Val>, AllocError>
    requires old_sorted { AreSorted old.now }
    requires new_sorted { AreKindSorted new.now }
    ensures { IfOk result (λ lost. option_map value_of lost ≡ lost_value (id_in ids.now.rows) (lost_in ids.now.rows)
        (PlainType.Rec (plain_attrs old.now)) (kind_type new.now)) }
{
    match new {
        Kind::Rec(attrs) => match lost_record(alloc, ids, old, attrs)? {
            Some(entries) => Ok(Some(Val::Rec(entries))),
            None => Ok(None),
        },
        _ => Ok(Some(Val::Rec(some_entries(alloc, ids, old)?))),
    }
}

// A value that the old type has and the new kind has not.
#[cycle(lost)]
fn lost_to_kind(
    alloc: Global,
    ids: &Ids,
    old: &Type,
    new: &Kind<'_>,
) -> Result<Option<Val>, AllocError>
    requires { AreKindSorted new.now }
    ensures { IfOk result (λ lost. option_map value_of lost ≡ lost_value (id_in ids.now.rows) (lost_in ids.now.rows)
        (plain old.now) (kind_type new.now)) }
{
    match old {
        Type::Never | Type::AnyBool | Type::True | Type::False => Ok(lost_truth(new)),
        Type::Long => Ok(lost_number(new)),
        Type::String => Ok(lost_text(alloc, new)),
        Type::Set { element } => match element {
            Some(element) => lost_set(alloc, ids, element.get(), new),
            None => lost_unknown(alloc, new),
        },
        Type::Record { attrs, .. } => lost_attributes(alloc, ids, attrs.as_slice(), new),
        Type::Entity { names } => lost_entity(alloc, ids, first_name(names.get()), new),
        Type::AnyEntity => Ok(lost_empty(alloc, new)),
        Type::Extension { name } => lost_extension(alloc, name, new),
    }
}

/// A value that the old type has and the new type has not, or none where there is no such value.
pub fn lost_value(
    alloc: Global,
    ids: &Ids,
    old: &Type,
    new: &Type,
) -> Result<Option<Val>, AllocError>
    ensures { IfOk result (λ lost. option_map value_of lost ≡ lost_value (id_in ids.now.rows) (lost_in ids.now.rows)
        (plain old.now) (plain new.now)) }
{
    lost_to_kind(alloc, ids, old, &kind_of(new))
}

// A value of the old attribute that the new one of its name has not.
#[cycle(lost)]
fn lost_attribute(
    alloc: Global,
    ids: &Ids,
    old: &Type,
    new: Option<&(Type, bool)>,
) -> Result<Option<Val>, AllocError>
    ensures { IfOk result (λ lost. option_map value_of lost ≡ lost_to (id_in ids.now.rows) (lost_in ids.now.rows)
        (plain old.now) (option_copied new.entry)) }
{
    match new {
        None => Ok(Some(some_value(alloc, ids, old)?)),
        Some((ty, _)) => lost_to_kind(alloc, ids, old, &kind_of(ty)),
    }
}

/// The attributes of a record that the old type has and the new type has not, or none where there is no such record.
#[cycle(lost)]
pub fn lost_record(
    alloc: Global,
    ids: &Ids,
    old: &[(Text, (Type, bool))],
    new: &[(Text, (Type, bool))],
) -> Result<Option<List<(Text, Val)>>, AllocError>
    requires old_sorted { AreSorted old.now }
    requires new_sorted { AreSorted new.now }
    ensures { IfOk result (λ lost. option_map (λ es. Rec (entries_value es)) lost ≡ lost_value (id_in ids.now.rows)
        (lost_in ids.now.rows) (PlainType.Rec (plain_attrs old.now)) (PlainType.Rec (plain_attrs new.now))) }
{
    if !all_required(old, new) {
        return Ok(Some(some_entries(alloc, ids, old)?));
    }
    let mut next = 0;
    for at in 0..old.len() {
        let (place, found) = seek(new, next, &old[at].0);
        if let Some(value) = lost_attribute(alloc, ids, &old[at].1.0, found)? {
            return Ok(Some(entries_with(alloc, ids, old, at, value)?));
        }
        next = place;
    }
    Ok(None)
}
