ghost use Rattle.std.specs.Prelude.{◌≡◌, ◌+◌, ◌<◌, ◌≤◌, [], Option, Some, IfOk, drop, length};
ghost use Rattle.std.specs.List.Sorted.{IsStrictlySortedBy};
ghost use Rattle.std.specs.Map.{keys_of};
ghost use Rattle.std.specs.Option.{option_map};
ghost use Rattle.cedar_names.specs.Meaning.{PlainType, Attributes};
ghost use Rattle.cedar_names.specs.Orders.{names_in_order, uids_in_order};
ghost use Rattle.schema_inclusion_values.specs.Seen.{value_of, entries_value};
ghost use Rattle.schema_inclusion_values.specs.Values.{Set, Rec};
ghost use Rattle.schema_inclusion_shown.specs.Members.{members_value};
ghost use Rattle.schema_inclusion_types.specs.Kinds.{plain, plain_attrs, kind_type};
ghost use Rattle.schema_inclusion_check.specs.Raw.{raw_meaning};
ghost use Rattle.schema_inclusion_reasons.specs.Misfits.{is_unknown, is_required};
ghost use Rattle.schema_inclusion_reasons.specs.FirstMisfit.{Named, misfit, members_misfit, named_misfit, behind_name};
ghost use Rattle.schema_inclusion_reasons.specs.FirstMisfit.{rises, required_or, first_unknown, tags_misfit};
ghost use Rattle.schema_inclusion_reasons.specs.FirstMisfit.{each_misfit};
ghost use Rattle.schema_inclusion_reasons.specs.FirstReason.{has_id};
ghost use Rattle.schema_inclusion_explain.specs.Held.{held_found};
ghost use Rattle.schema_inclusion_explain.specs.Walks.{Goes, GoesOn, Fits};

use crate::kinds::{
    entity_misfit, extension_misfit, number_misfit, reshaped, text_misfit, truth_misfit,
};
use crate::places::{Cause, Found, Shape, Step, behind, here};
use cedar_data::{CloneIn, Text};
use schema_build_types::Type;
use schema_inclusion_check::Lent;
use schema_inclusion_types::kinds::{Kind, element_kind, kind_of};
use schema_inclusion_values::Val;
use std::alloc::{AllocError, Global};
use std::cmp::Ordering;

// Whether the names rise.
fn rises(entries: &[(Text, Val)]) -> bool
    ensures { result ≡ rises (entries_value entries.now) }
{
    let mut at = 0;
    while at + 1 < entries.len() {
        match entries[at].0.cmp(&entries[at + 1].0) {
            Ordering::Less => at += 1,
            Ordering::Equal => return false,
            Ordering::Greater => return false,
        }
    }
    true
}

// That there is no attribute of this name.
fn unknown(alloc: Global, name: &Text) -> Result<Found, AllocError>
    ensures { IfOk result (λ f. held_found f ≡ behind_name (name.now, [], is_unknown)) }
{
    behind(
        here(alloc, Cause::Unknown),
        Step::Attr(name.clone_in(alloc)?),
    )
}

// That the attribute of this name is required.
fn required(alloc: Global, name: &Text) -> Result<Found, AllocError>
    ensures { IfOk result (λ f. held_found f ≡ behind_name (name.now, [], is_required)) }
{
    behind(
        here(alloc, Cause::Required),
        Step::Attr(name.clone_in(alloc)?),
    )
}

// The first of the entries from a place on has no attribute, where there is one.
fn first_unknown(
    alloc: Global,
    entries: &[(Text, Val)],
    next: usize,
) -> Result<Option<Found>, AllocError>
    ensures { IfOk result (λ f. option_map held_found f
        ≡ option_map behind_name (first_unknown (entries_value (drop next entries.now)))) }
{
    if next >= entries.len() {
        return Ok(None);
    }
    Ok(Some(unknown(alloc, &entries[next].0)?))
}

/// Why a value is none of the kind, if it is none.
#[cycle(misfit)]
pub(crate) fn kind_misfit(
    alloc: Global,
    schema: &Lent<'_>,
    kind: &Kind<'_>,
    value: &Val,
) -> Result<Option<Found>, AllocError>
    requires entities { IsStrictlySortedBy (λ a b. names_in_order a.name b.name) (keys_of schema.now.entities.now) }
    requires actions { IsStrictlySortedBy uids_in_order (keys_of schema.now.actions.now) }
    ensures { IfOk result (λ f. option_map held_found f
        ≡ misfit (has_id (raw_meaning schema.now.entities.now schema.now.actions.now)) (kind_type kind.now)
        (value_of value.now)) }
{
    match value {
        Val::Bool(_) => truth_misfit(alloc, kind),
        Val::Long(_) => number_misfit(alloc, kind),
        Val::Str(_) => text_misfit(alloc, kind),
        Val::Ref(ty, id) => entity_misfit(alloc, schema, kind, ty, id),
        Val::Set(members) => set_misfit(alloc, schema, kind, members.as_slice()),
        Val::Rec(entries) => record_misfit(alloc, schema, kind, entries.as_slice()),
        Val::Ext(name) => extension_misfit(alloc, kind, name),
    }
}

// Why a set of these members is none of the kind, if it is none.
#[cycle(misfit)]
fn set_misfit(
    alloc: Global,
    schema: &Lent<'_>,
    kind: &Kind<'_>,
    members: &[Val],
) -> Result<Option<Found>, AllocError>
    requires entities { IsStrictlySortedBy (λ a b. names_in_order a.name b.name) (keys_of schema.now.entities.now) }
    requires actions { IsStrictlySortedBy uids_in_order (keys_of schema.now.actions.now) }
    ensures { IfOk result (λ f. option_map held_found f
        ≡ misfit (has_id (raw_meaning schema.now.entities.now schema.now.actions.now)) (kind_type kind.now)
        (Set (members_value members.now))) }
{
    match kind {
        Kind::Set(element) => members_misfit(alloc, schema, &element_kind(*element), members),
        _ => reshaped(alloc, Shape::Set, kind),
    }
}

// Why one of the members is none of the kind, if one is none.
#[cycle(misfit)]
fn members_misfit(
    alloc: Global,
    schema: &Lent<'_>,
    kind: &Kind<'_>,
    members: &[Val],
) -> Result<Option<Found>, AllocError>
    requires entities { IsStrictlySortedBy (λ a b. names_in_order a.name b.name) (keys_of schema.now.entities.now) }
    requires actions { IsStrictlySortedBy uids_in_order (keys_of schema.now.actions.now) }
    ensures { IfOk result (λ f. option_map held_found f
        ≡ members_misfit (misfit (has_id (raw_meaning schema.now.entities.now schema.now.actions.now))
        (kind_type kind.now)) 0 (members_value members.now)) }
{
    let mut at = 0;
    for member in members {
        if let Some(found) = kind_misfit(alloc, schema, kind, member)? {
            return Ok(Some(behind(found, Step::Member(at))?));
        }
        at += 1;
    }
    Ok(None)
}

// Why a record of these entries is none of the kind, if it is none.
#[cycle(misfit)]
fn record_misfit(
    alloc: Global,
    schema: &Lent<'_>,
    kind: &Kind<'_>,
    entries: &[(Text, Val)],
) -> Result<Option<Found>, AllocError>
    requires entities { IsStrictlySortedBy (λ a b. names_in_order a.name b.name) (keys_of schema.now.entities.now) }
    requires actions { IsStrictlySortedBy uids_in_order (keys_of schema.now.actions.now) }
    ensures { IfOk result (λ f. option_map held_found f
        ≡ misfit (has_id (raw_meaning schema.now.entities.now schema.now.actions.now)) (kind_type kind.now)
        (Rec (entries_value entries.now))) }
{
    match kind {
        Kind::Rec(attrs) => attributes_misfit(alloc, schema, attrs, entries),
        _ => reshaped(alloc, Shape::Record, kind),
    }
}

/// Why a record of these entries is none of these attributes, if it is none.
#[cycle(misfit)]
pub(crate) fn attributes_misfit(
    alloc: Global,
    schema: &Lent<'_>,
    attrs: &[(Text, (Type, bool))],
    entries: &[(Text, Val)],
) -> Result<Option<Found>, AllocError>
    requires entities { IsStrictlySortedBy (λ a b. names_in_order a.name b.name) (keys_of schema.now.entities.now) }
    requires actions { IsStrictlySortedBy uids_in_order (keys_of schema.now.actions.now) }
    ensures { IfOk result (λ f. option_map held_found f
        ≡ misfit (has_id (raw_meaning schema.now.entities.now schema.now.actions.now))
        (PlainType.Rec (plain_attrs attrs.now)) (Rec (entries_value entries.now))) }
{
    if !rises(entries) {
        return Ok(Some(here(alloc, Cause::Disordered)));
    }
    named_misfit(alloc, schema, attrs, entries)
}

// Why entries whose names rise are none of these attributes, if they are none.
#[cycle(misfit)]
fn named_misfit(
    alloc: Global,
    schema: &Lent<'_>,
    attrs: &[(Text, (Type, bool))],
    entries: &[(Text, Val)],
) -> Result<Option<Found>, AllocError>
    requires entities { IsStrictlySortedBy (λ a b. names_in_order a.name b.name) (keys_of schema.now.entities.now) }
    requires actions { IsStrictlySortedBy uids_in_order (keys_of schema.now.actions.now) }
    ensures { IfOk result (λ f. option_map held_found f ≡ option_map behind_name
        (named_misfit (has_id (raw_meaning schema.now.entities.now schema.now.actions.now)) (plain_attrs attrs.now)
        (entries_value entries.now))) }
{
    let mut next = 0;
    for attr in attrs {
        let (place, found) = step(alloc, schema, attr, entries, next)?;
        if let Some(found) = found {
            return Ok(Some(found));
        }
        next = place;
    }
    first_unknown(alloc, entries, next)
}

// What an attribute of which no entry is left says, and the place where the entries go on.
fn absent(
    alloc: Global,
    attr: &(Text, (Type, bool)),
    next: usize,
) -> Result<(usize, Option<Found>), AllocError>
    ensures place { IfOk result (λ r. r.0 ≡ next) }
    ensures value { IfOk result (λ r. (r.0 ≡ next)
        × ((later : Option Named) → Goes (required_or attr.now.1.1 attr.now.0 later) later r.1)) }
{
    if attr.1.1 {
        Ok((next, Some(required(alloc, &attr.0)?)))
    } else {
        Ok((next, None))
    }
}

// What the attribute says of the entry, which is its own, and the place where the entries go on.
#[cycle(misfit)]
fn present(
    alloc: Global,
    schema: &Lent<'_>,
    attr: &(Text, (Type, bool)),
    value: &Val,
    next: usize,
) -> Result<(usize, Option<Found>), AllocError>
    requires entities { IsStrictlySortedBy (λ a b. names_in_order a.name b.name) (keys_of schema.now.entities.now) }
    requires actions { IsStrictlySortedBy uids_in_order (keys_of schema.now.actions.now) }
    requires within { next < usize.MAX }
    ensures place { IfOk result (λ r. r.0 ≤ next + 1) }
    ensures value { IfOk result (λ r. Fits (misfit (has_id (raw_meaning schema.now.entities.now
        schema.now.actions.now)) (plain attr.now.1.0) (value_of value.now)) attr.now.0 next r.0 r.1) }
{
    match kind_misfit(alloc, schema, &kind_of(&attr.1.0), value)? {
        None => Ok((next + 1, None)),
        Some(found) => {
            let name = Step::Attr(attr.0.clone_in(alloc)?);
            Ok((next, Some(behind(found, name)?)))
        }
    }
}

// What the attribute says of the entries from a place on, and the place where they go on.
#[cycle(misfit)]
fn step(
    alloc: Global,
    schema: &Lent<'_>,
    attr: &(Text, (Type, bool)),
    entries: &[(Text, Val)],
    next: usize,
) -> Result<(usize, Option<Found>), AllocError>
    requires entities { IsStrictlySortedBy (λ a b. names_in_order a.name b.name) (keys_of schema.now.entities.now) }
    requires actions { IsStrictlySortedBy uids_in_order (keys_of schema.now.actions.now) }
    requires within { next ≤ length entries.now }
    ensures place { IfOk result (λ r. r.0 ≤ length entries.now) }
    ensures value { IfOk result (λ r. (fs : Attributes) → GoesOn
        (has_id (raw_meaning schema.now.entities.now schema.now.actions.now)) attr.now fs entries.now next r.0 r.1) }
{
    if next >= entries.len() {
        return absent(alloc, attr, next);
    }
    let entry = &entries[next];
    match entry.0.cmp(&attr.0) {
        Ordering::Less => Ok((next, Some(unknown(alloc, &entry.0)?))),
        Ordering::Equal => present(alloc, schema, attr, &entry.1, next),
        Ordering::Greater => absent(alloc, attr, next),
    }
}

// Why one of the tags is none of the type, if one is none.
fn each_misfit(
    alloc: Global,
    schema: &Lent<'_>,
    ty: &Type,
    tags: &[(Text, Val)],
) -> Result<Option<Found>, AllocError>
    requires entities { IsStrictlySortedBy (λ a b. names_in_order a.name b.name) (keys_of schema.now.entities.now) }
    requires actions { IsStrictlySortedBy uids_in_order (keys_of schema.now.actions.now) }
    ensures { IfOk result (λ f. option_map held_found f ≡ each_misfit
        (misfit (has_id (raw_meaning schema.now.entities.now schema.now.actions.now)) (plain ty.now))
        (entries_value tags.now)) }
{
    let kind = kind_of(ty);
    for (name, value) in tags {
        if let Some(found) = kind_misfit(alloc, schema, &kind, value)? {
            let step = Step::Attr(name.clone_in(alloc)?);
            return Ok(Some(behind(found, step)?));
        }
    }
    Ok(None)
}

/// Why these tags are none of the type, if they are none.
pub(crate) fn tags_misfit(
    alloc: Global,
    schema: &Lent<'_>,
    ty: &Type,
    tags: &[(Text, Val)],
) -> Result<Option<Found>, AllocError>
    requires entities { IsStrictlySortedBy (λ a b. names_in_order a.name b.name) (keys_of schema.now.entities.now) }
    requires actions { IsStrictlySortedBy uids_in_order (keys_of schema.now.actions.now) }
    ensures { IfOk result (λ f. option_map held_found f
        ≡ tags_misfit (has_id (raw_meaning schema.now.entities.now schema.now.actions.now)) (plain ty.now)
        (entries_value tags.now)) }
{
    if !rises(tags) {
        return Ok(Some(here(alloc, Cause::Disordered)));
    }
    each_misfit(alloc, schema, ty, tags)
}
