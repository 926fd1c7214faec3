// Common types and entity types.
ghost use Rattle.std.specs.Prelude.{◌≡◌, IfOk, OnOk, map, codes};
ghost use Rattle.serde_json.specs.View.{view, members_view};
ghost use Rattle.schema_json_values.specs.FragmentValues.{common_type_value, with_shape, with_tags, with_list, list_of};
ghost use Rattle.schema_json_values.specs.FragmentValues.{name_value, choice_value, kind_members, entity_type_value};

use crate::annotations::put_annotations;
use crate::leaves::{Members, names_value, put_flag, text_value};
use crate::types::type_members;
use cedar_data::{Boxed, NonEmpty};
use cedar_identifiers::{Eid, NameText};
use schema_json::{CommonType, EntityType, EntityTypeKind, StandardEntityType, Type};
use serde_json::{Map, Value, put};
use std::alloc::{AllocError, Global};

/// The JSON value of a common type.
pub fn common_type_value<N: NameText>(
    alloc: Global,
    common: &CommonType<N>,
) -> Result<Value, AllocError>
    ensures { IfOk result (λ v. view v ≡ common_type_value N.components common.now) }
{
    let mut members = type_members(alloc, &common.ty)?;
    put_annotations(&mut members, alloc, &common.annotations)?;
    Ok(Value::Object(members))
}

/// Adds the shape or the context, where it is not the empty record.
pub fn put_shape<N: NameText>(
    members: &mut Members,
    alloc: Global,
    key: &str,
    ty: &Type<N>,
) -> Result<(), AllocError>
    ensures { OnOk result (members_view members.new.entries ≡ with_shape N.components key.now ty.now
        (members_view members.old.entries)) }
{
    if ty.is_empty_record() {
        return Ok(());
    }
    let value = Value::Object(type_members(alloc, ty)?);
    put(members, alloc, key, value)
}

fn put_tags<N: NameText>(
    members: &mut Members,
    alloc: Global,
    tags: &Option<Boxed<Type<N>>>,
) -> Result<(), AllocError>
    ensures { OnOk result (members_view members.new.entries
        ≡ with_tags N.components tags.now (members_view members.old.entries)) }
{
    match tags {
        Some(ty) => {
            let value = Value::Object(type_members(alloc, ty.get())?);
            put(members, alloc, "tags", value)
        }
        None => Ok(()),
    }
}

fn put_parents<N: NameText>(
    members: &mut Members,
    alloc: Global,
    parents: &[N],
) -> Result<(), AllocError>
    ensures { OnOk result (members_view members.new.entries
        ≡ with_list (codes "memberOfTypes") (map (name_value N.components) parents.now)
        (members_view members.old.entries)) }
{
    if parents.len() == 0 {
        return Ok(());
    }
    let value = names_value(alloc, parents)?;
    put(members, alloc, "memberOfTypes", value)
}

fn standard_members<N: NameText>(
    alloc: Global,
    standard: &StandardEntityType<N>,
) -> Result<Members, AllocError>
    ensures { IfOk result (λ m. members_view m.entries
        ≡ kind_members N.components (EntityTypeKind.Standard standard.now)) }
{
    let mut members = Map::new(alloc);
    put_parents(&mut members, alloc, standard.member_of_types.as_slice())?;
    put_shape(&mut members, alloc, "shape", &standard.shape.0)?;
    put_tags(&mut members, alloc, &standard.tags)?;
    Ok(members)
}

fn choices_value(alloc: Global, choices: &NonEmpty<Eid>) -> Result<Value, AllocError>
    ensures { IfOk result (λ v. view v ≡ list_of (map choice_value choices.now)) }
{
    let mut items = Vec::new(alloc);
    for choice in choices.iter() {
        let text = text_value(alloc, choice.0.as_str())?;
        items.push(text)?;
    }
    Ok(Value::Array(items))
}

fn kind_members<N: NameText>(alloc: Global, kind: &EntityTypeKind<N>) -> Result<Members, AllocError>
    ensures { IfOk result (λ m. members_view m.entries ≡ kind_members N.components kind.now) }
{
    match kind {
        EntityTypeKind::Standard(standard) => standard_members(alloc, standard.get()),
        EntityTypeKind::Enum { choices } => {
            let mut members = Map::new(alloc);
            let value = choices_value(alloc, choices.get())?;
            put(&mut members, alloc, "enum", value)?;
            Ok(members)
        }
    }
}

/// The JSON value of an entity type.
pub fn entity_type_value<N: NameText>(
    alloc: Global,
    entity: &EntityType<N>,
) -> Result<Value, AllocError>
    ensures { IfOk result (λ v. view v ≡ entity_type_value N.components entity.now) }
{
    let mut members = kind_members(alloc, &entity.kind)?;
    put_flag(&mut members, alloc, entity.external, "external", true)?;
    put_annotations(&mut members, alloc, &entity.annotations)?;
    Ok(Value::Object(members))
}
