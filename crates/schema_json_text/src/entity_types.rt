// Common types and entity types.
ghost use Rattle.std.specs.Prelude.{OnOk, IfOk, map, string_bytes, codes, true};
ghost use Rattle.serde_json.specs.Data.{no_members, put};
ghost use Rattle.schema_json_values.specs.FragmentValues.{common_type_value, entity_type_value, kind_members, list_of};
ghost use Rattle.schema_json_values.specs.FragmentValues.{choice_value};
ghost use Rattle.schema_json_quotes.specs.Adds.{Adds};
ghost use Rattle.schema_json_text.specs.AddsValue.{AddsValue};
ghost use Rattle.schema_json_text.specs.Members.{AddsMember, entity_end, flag_value, named_list, shape_value};
ghost use Rattle.schema_json_text.specs.Members.{tags_value};

use crate::annotations::push_first_annotations;
use crate::leaves::{push_comma, push_later, push_names};
use crate::types::{push_annotated, push_type};
use cedar_data::{Boxed, NonEmpty};
use cedar_identifiers::{Eid, NameText};
use schema_json::{CommonType, EntityType, EntityTypeKind, StandardEntityType, Type};
use schema_json_quotes::pushing::{push, push_char};
use schema_json_quotes::quotes::push_quoted;
use std::alloc::{AllocError, Global};

/// Adds the JSON text of a common type.
pub fn push_common_type<N: NameText>(
    out: &mut String,
    alloc: Global,
    common: &CommonType<N>,
) -> Result<(), AllocError>
    ensures { OnOk result (AddsValue out.old out.new (common_type_value N.components common.now)) }
{
    push_annotated(out, alloc, &common.ty, &common.annotations, true)
}

/// Adds that another schema declares it, where it does.
pub fn push_external(out: &mut String, later: bool, external: bool) -> Result<bool, AllocError>
    ensures { IfOk result (AddsMember later (codes "external") (flag_value external true) (string_bytes out.old)
        (string_bytes out.new)) }
{
    if external {
        push_later(out, later, "\"external\":true")?;
        return Ok(true);
    }
    Ok(later)
}

// Adds the parents, where there are any.
fn push_parents<N: NameText>(
    out: &mut String,
    alloc: Global,
    later: bool,
    parents: &[N],
) -> Result<bool, AllocError>
    ensures { IfOk result (AddsMember later (codes "memberOfTypes") (named_list N.components parents.now)
        (string_bytes out.old) (string_bytes out.new)) }
{
    if parents.len() == 0 {
        return Ok(later);
    }
    push_later(out, later, "\"memberOfTypes\":")?;
    push_names(out, alloc, parents)?;
    Ok(true)
}

// Adds the shape, where it is not the empty record.
fn push_shape<N: NameText>(
    out: &mut String,
    alloc: Global,
    later: bool,
    shape: &Type<N>,
) -> Result<bool, AllocError>
    ensures { IfOk result (AddsMember later (codes "shape") (shape_value N.components shape.now) (string_bytes out.old)
        (string_bytes out.new)) }
{
    if shape.is_empty_record() {
        return Ok(later);
    }
    push_later(out, later, "\"shape\":")?;
    push_type(out, alloc, shape)?;
    Ok(true)
}

// Adds the type of the tags, where there is one.
fn push_tags<N: NameText>(
    out: &mut String,
    alloc: Global,
    later: bool,
    tags: &Option<Boxed<Type<N>>>,
) -> Result<bool, AllocError>
    ensures { IfOk result (AddsMember later (codes "tags") (tags_value N.components tags.now) (string_bytes out.old)
        (string_bytes out.new)) }
{
    match tags {
        Some(ty) => {
            push_later(out, later, "\"tags\":")?;
            push_type(out, alloc, ty.get())?;
            Ok(true)
        }
        None => Ok(later),
    }
}

// Adds the choices of an enum.
fn push_choices(out: &mut String, choices: &NonEmpty<Eid>) -> Result<(), AllocError>
    ensures { OnOk result (AddsValue out.old out.new (list_of (map choice_value choices.now))) }
{
    push_char(out, '[')?;
    let mut later = false;
    for choice in choices.iter() {
        push_comma(out, later)?;
        push_quoted(out, choice.0.as_str())?;
        later = true;
    }
    push_char(out, ']')
}

// Adds an entity type, from its annotations on.
fn push_standard<N: NameText>(
    out: &mut String,
    alloc: Global,
    later: bool,
    external: bool,
    standard: &StandardEntityType<N>,
) -> Result<(), AllocError>
    ensures { OnOk result (Adds out.old out.new
        (entity_end later external (kind_members N.components (EntityTypeKind.Standard standard.now)))) }
{
    let later = push_external(out, later, external)?;
    let later = push_parents(out, alloc, later, standard.member_of_types.as_slice())?;
    let later = push_shape(out, alloc, later, &standard.shape.0)?;
    let _later = push_tags(out, alloc, later, &standard.tags)?;
    push_char(out, '}')
}

// Adds an entity type whose entities are listed, from its annotations on.
fn push_enum(
    out: &mut String,
    later: bool,
    external: bool,
    choices: &NonEmpty<Eid>,
) -> Result<(), AllocError>
    ensures { OnOk result (Adds out.old out.new
        (entity_end later external (put (codes "enum") (list_of (map choice_value choices.now)) no_members))) }
{
    push_later(out, later, "\"enum\":")?;
    push_choices(out, choices)?;
    let _later = push_external(out, true, external)?;
    push_char(out, '}')
}

/// Adds the JSON text of an entity type.
pub fn push_entity_type<N: NameText>(
    out: &mut String,
    alloc: Global,
    entity: &EntityType<N>,
) -> Result<(), AllocError>
    ensures { OnOk result (AddsValue out.old out.new (entity_type_value N.components entity.now)) }
{
    push_char(out, '{')?;
    let later = push_first_annotations(out, &entity.annotations)?;
    match &entity.kind {
        EntityTypeKind::Standard(standard) => {
            push_standard(out, alloc, later, entity.external, standard.get())
        }
        EntityTypeKind::Enum { choices } => push_enum(out, later, entity.external, choices.get()),
    }
}
