ghost use Rattle.std.specs.Prelude.{◌≡◌, ℤ, Bool, [], Some, IfOk, ◌||◌};
ghost use Rattle.std.specs.List.Sorted.{IsStrictlySortedBy};
ghost use Rattle.std.specs.Map.{keys_of};
ghost use Rattle.std.specs.Option.{option_copied, option_map};
ghost use Rattle.cedar_identifiers.specs.Names.{components_of};
ghost use Rattle.cedar_names.specs.Orders.{names_in_order, uids_in_order};
ghost use Rattle.schema_inclusion_types.specs.Kinds.{kind_type};
ghost use Rattle.schema_inclusion_values.specs.Ids.{has_text};
ghost use Rattle.schema_inclusion_values.specs.Values.{Text as Letters, Name as Words, Truth, Number, Str, Ref, Ext};
ghost use Rattle.schema_inclusion_check.specs.Parts.{ids_of};
ghost use Rattle.schema_inclusion_check.specs.Raw.{raw_meaning};
ghost use Rattle.schema_inclusion_reasons.specs.Misfits.{type_shape, is_reshaped};
ghost use Rattle.schema_inclusion_reasons.specs.FirstMisfit.{misfit, id_misfit, other_shape};
ghost use Rattle.schema_inclusion_reasons.specs.FirstReason.{takes, entity_takes, is_found, entity_named, action_named};
ghost use Rattle.schema_inclusion_reasons.specs.FirstReason.{has_id};
ghost use Rattle.schema_inclusion_explain.specs.Held.{held_shape, held_found};

use crate::places::{Cause, Found, Shape, here};
use crate::seek::{find_action, find_entity};
use cedar_data::{CloneIn, NonEmpty, Text};
use cedar_identifiers::{Eid, Name, UnreservedId};
use cedar_names::EntityUID;
use schema_inclusion_check::Lent;
use schema_inclusion_check::parts::entity_parts;
use schema_inclusion_types::kinds::Kind;
use schema_inclusion_types::{same_name, same_text};
use std::alloc::{AllocError, Global};

// Whether the id is one of the choices.
fn has_choice(choices: &NonEmpty<Eid>, id: &Text) -> bool
    ensures { result ≡ has_text (ids_of choices.now) id.now }
{
    for choice in choices.iter() {
        if same_text(&choice.0, id) {
            return true;
        }
    }
    false
}

/// Whether the id is one of the choices, where there are choices.
pub(crate) fn takes(choices: Option<&NonEmpty<Eid>>, id: &Text) -> bool
    ensures { result ≡ takes (option_map ids_of (option_copied choices.entry)) id.now }
{
    match choices {
        None => true,
        Some(choices) => has_choice(choices, id),
    }
}

// Whether the schema has an action of this type and id.
fn has_action(alloc: Global, schema: &Lent<'_>, ty: &Name, id: &Text) -> Result<bool, AllocError>
    requires { IsStrictlySortedBy uids_in_order (keys_of schema.now.actions.now) }
    ensures { IfOk result (λ has. has ≡ is_found (action_named (raw_meaning schema.now.entities.now
        schema.now.actions.now) (components_of ty.now.name, id.now))) }
{
    let uid = EntityUID {
        ty: ty.clone_in(alloc)?,
        eid: Eid(id.clone_in(alloc)?),
        loc: None,
    };
    Ok(find_action(schema.actions, &uid).is_some())
}

// Whether the schema has an entity type of this name that has the id.
fn has_entity(schema: &Lent<'_>, ty: &Name, id: &Text) -> bool
    requires { IsStrictlySortedBy (λ a b. names_in_order a.name b.name) (keys_of schema.now.entities.now) }
    ensures { result ≡ entity_takes (entity_named (raw_meaning schema.now.entities.now schema.now.actions.now)
        (components_of ty.now.name)) id.now }
{
    match find_entity(schema.entities, ty) {
        None => false,
        Some(entry) => takes(entity_parts(entry).choices, id),
    }
}

/// Whether the type of this name, an entity type or the type of an action, has the id.
pub(crate) fn has_id(
    alloc: Global,
    schema: &Lent<'_>,
    ty: &Name,
    id: &Text,
) -> Result<bool, AllocError>
    requires entities { IsStrictlySortedBy (λ a b. names_in_order a.name b.name) (keys_of schema.now.entities.now) }
    requires actions { IsStrictlySortedBy uids_in_order (keys_of schema.now.actions.now) }
    ensures { IfOk result (λ has. has
        ≡ has_id (raw_meaning schema.now.entities.now schema.now.actions.now) (components_of ty.now.name) id.now) }
{
    if has_entity(schema, ty, id) {
        return Ok(true);
    }
    has_action(alloc, schema, ty, id)
}

// The shape of the types of this kind.
fn shape(alloc: Global, kind: &Kind<'_>) -> Result<Shape, AllocError>
    ensures { IfOk result (λ s. held_shape s ≡ type_shape (kind_type kind.now)) }
{
    match kind {
        Kind::Bool => Ok(Shape::Bool),
        Kind::Long => Ok(Shape::Long),
        Kind::Str => Ok(Shape::Str),
        Kind::Set(_) => Ok(Shape::Set),
        Kind::Rec(_) => Ok(Shape::Record),
        Kind::Entity(name) => Ok(Shape::Entity(name.clone_in(alloc)?)),
        Kind::Ext(name) => Ok(Shape::Extension(name.clone_in(alloc)?)),
    }
}

/// That a value of the shape is none of the kind.
pub(crate) fn reshaped(
    alloc: Global,
    was: Shape,
    kind: &Kind<'_>,
) -> Result<Option<Found>, AllocError>
    ensures { IfOk result (λ f. option_map held_found f
        ≡ Some ([], is_reshaped (held_shape was) (type_shape (kind_type kind.now)))) }
{
    let now = shape(alloc, kind)?;
    Ok(Some(here(alloc, Cause::Reshaped(was, now))))
}

/// Why a truth value is none of the kind, if it is none.
pub(crate) fn truth_misfit(alloc: Global, kind: &Kind<'_>) -> Result<Option<Found>, AllocError>
    ensures { IfOk result (λ f. (fits : Words → Letters → Bool) (b : Bool) → option_map held_found f
        ≡ misfit fits (kind_type kind.now) (Truth b)) }
{
    match kind {
        Kind::Bool => Ok(None),
        _ => reshaped(alloc, Shape::Bool, kind),
    }
}

/// Why a number is none of the kind, if it is none.
pub(crate) fn number_misfit(alloc: Global, kind: &Kind<'_>) -> Result<Option<Found>, AllocError>
    ensures { IfOk result (λ f. (fits : Words → Letters → Bool) (n : ℤ) → option_map held_found f
        ≡ misfit fits (kind_type kind.now) (Number n)) }
{
    match kind {
        Kind::Long => Ok(None),
        _ => reshaped(alloc, Shape::Long, kind),
    }
}

/// Why a text is none of the kind, if it is none.
pub(crate) fn text_misfit(alloc: Global, kind: &Kind<'_>) -> Result<Option<Found>, AllocError>
    ensures { IfOk result (λ f. (fits : Words → Letters → Bool) (s : Letters) → option_map held_found f
        ≡ misfit fits (kind_type kind.now) (Str s)) }
{
    match kind {
        Kind::Str => Ok(None),
        _ => reshaped(alloc, Shape::Str, kind),
    }
}

// That the value of an extension type is none of the kind.
fn other_extension(
    alloc: Global,
    kind: &Kind<'_>,
    name: &UnreservedId,
) -> Result<Option<Found>, AllocError>
    ensures { IfOk result (λ f. option_map held_found f
        ≡ other_shape (type_shape (kind_type kind.now)) (Ext name.now.id.text)) }
{
    reshaped(alloc, Shape::Extension(name.clone_in(alloc)?), kind)
}

/// Why the value of an extension type is none of the kind, if it is none.
pub(crate) fn extension_misfit(
    alloc: Global,
    kind: &Kind<'_>,
    name: &UnreservedId,
) -> Result<Option<Found>, AllocError>
    ensures { IfOk result (λ f. (fits : Words → Letters → Bool) → option_map held_found f
        ≡ misfit fits (kind_type kind.now) (Ext name.now.id.text)) }
{
    match kind {
        Kind::Ext(own) => {
            if same_text(&name.id.text, &own.id.text) {
                Ok(None)
            } else {
                other_extension(alloc, kind, name)
            }
        }
        _ => other_extension(alloc, kind, name),
    }
}

// That an entity is none of the kind.
fn other_entity(
    alloc: Global,
    kind: &Kind<'_>,
    ty: &Name,
    id: &Text,
) -> Result<Option<Found>, AllocError>
    ensures { IfOk result (λ f. option_map held_found f
        ≡ other_shape (type_shape (kind_type kind.now)) (Ref (components_of ty.now.name) id.now)) }
{
    reshaped(alloc, Shape::Entity(ty.clone_in(alloc)?), kind)
}

// Why an entity is none of the type, which has its name.
fn id_misfit(
    alloc: Global,
    schema: &Lent<'_>,
    own: &Name,
    ty: &Name,
    id: &Text,
) -> Result<Option<Found>, AllocError>
    requires entities { IsStrictlySortedBy (λ a b. names_in_order a.name b.name) (keys_of schema.now.entities.now) }
    requires actions { IsStrictlySortedBy uids_in_order (keys_of schema.now.actions.now) }
    ensures { IfOk result (λ f. option_map held_found f ≡ id_misfit (components_of ty.now.name) id.now
        (has_id (raw_meaning schema.now.entities.now schema.now.actions.now) (components_of own.now.name) id.now)) }
{
    if has_id(alloc, schema, own, id)? {
        return Ok(None);
    }
    let cause = Cause::NoId(ty.clone_in(alloc)?, id.clone_in(alloc)?);
    Ok(Some(here(alloc, cause)))
}

/// Why an entity is none of the kind, if it is none.
pub(crate) fn entity_misfit(
    alloc: Global,
    schema: &Lent<'_>,
    kind: &Kind<'_>,
    ty: &Name,
    id: &Text,
) -> Result<Option<Found>, AllocError>
    requires entities { IsStrictlySortedBy (λ a b. names_in_order a.name b.name) (keys_of schema.now.entities.now) }
    requires actions { IsStrictlySortedBy uids_in_order (keys_of schema.now.actions.now) }
    ensures { IfOk result (λ f. option_map held_found f
        ≡ misfit (has_id (raw_meaning schema.now.entities.now schema.now.actions.now)) (kind_type kind.now)
        (Ref (components_of ty.now.name) id.now)) }
{
    match kind {
        Kind::Entity(own) => {
            if same_name(ty, own) {
                id_misfit(alloc, schema, own, ty, id)
            } else {
                other_entity(alloc, kind, ty, id)
            }
        }
        _ => other_entity(alloc, kind, ty, id),
    }
}
