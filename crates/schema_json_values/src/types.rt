// Types.
ghost use Rattle.std.specs.Prelude.{◌≡◌, IfOk, map, true, codes};
ghost use Rattle.serde_json.specs.Data.{object, no_members, put as put_in};
ghost use Rattle.serde_json.specs.View.{view, members_view};
ghost use Rattle.schema_json_values.specs.TypeValues.{put_all, type_members, variant_members, attribute_entry};
ghost use Rattle.schema_json_values.specs.TypeValues.{with_flag, with_word};

use crate::annotations::put_annotations;
use crate::leaves::{Members, name_value, put_flag, text_value, with_word};
use cedar_data::Text;
use cedar_identifiers::NameText;
use schema_json::{Type, TypeOfAttribute, TypeVariant};
use serde_json::{Map, Value, put};
use std::alloc::{AllocError, Global};

/// The members of the object of a type.
#[cycle(types)]
pub fn type_members<N: NameText>(alloc: Global, ty: &Type<N>) -> Result<Members, AllocError>
    ensures { IfOk result (λ m. members_view m.entries ≡ type_members N.components ty.now) }
{
    match ty {
        Type::Variant { ty, .. } => variant_members(alloc, ty),
        Type::CommonTypeRef { type_name, .. } => {
            let text = type_name.text(alloc)?;
            with_word(alloc, text.as_str())
        }
    }
}

#[cycle(types)]
fn variant_members<N: NameText>(alloc: Global, ty: &TypeVariant<N>) -> Result<Members, AllocError>
    ensures { IfOk result (λ m. members_view m.entries ≡ variant_members N.components ty.now) }
{
    match ty {
        TypeVariant::String => with_word(alloc, "String"),
        TypeVariant::Long => with_word(alloc, "Long"),
        TypeVariant::Boolean => with_word(alloc, "Boolean"),
        TypeVariant::Set { element } => {
            let element = type_members(alloc, element.get())?;
            with_field(alloc, "Set", "element", Value::Object(element))
        }
        TypeVariant::Record(record) => {
            let entries = attribute_entries(alloc, record.attributes.as_slice())?;
            with_attributes(alloc, entries, record.additional_attributes)
        }
        TypeVariant::Entity { name } => {
            let name = name_value(alloc, name)?;
            with_field(alloc, "Entity", "name", name)
        }
        TypeVariant::EntityOrCommon { type_name } => {
            let name = name_value(alloc, type_name)?;
            with_field(alloc, "EntityOrCommon", "name", name)
        }
        TypeVariant::Extension { name } => {
            let name = text_value(alloc, name.as_str())?;
            with_field(alloc, "Extension", "name", name)
        }
    }
}

// The members of the attributes.
#[cycle(types)]
fn attribute_entries<N: NameText>(
    alloc: Global,
    entries: &[(Text, TypeOfAttribute<N>)],
) -> Result<Members, AllocError>
    ensures { IfOk result (λ m. members_view m.entries
        ≡ put_all (map (attribute_entry N.components) entries.now) no_members) }
{
    let mut members = Map::new(alloc);
    for (name, attribute) in entries {
        let mut beside = type_members(alloc, &attribute.ty)?;
        put_annotations(&mut beside, alloc, &attribute.annotations)?;
        put_flag(&mut beside, alloc, !attribute.required, "required", false)?;
        put(&mut members, alloc, name.as_str(), Value::Object(beside))?;
    }
    Ok(members)
}

// The object of a type of this word with this field.
fn with_field(alloc: Global, word: &str, key: &str, value: Value) -> Result<Members, AllocError>
    ensures { IfOk result (λ m. members_view m.entries ≡ put_in key.now (view value) (with_word word.now)) }
{
    let mut members = with_word(alloc, word)?;
    put(&mut members, alloc, key, value)?;
    Ok(members)
}

// The object of a type of records.
fn with_attributes(alloc: Global, entries: Members, is_open: bool) -> Result<Members, AllocError>
    ensures { IfOk result (λ m. members_view m.entries ≡ with_flag is_open (codes "additionalAttributes") true
        (put_in (codes "attributes") (object (members_view entries.entries)) (with_word (codes "Record")))) }
{
    let mut members = with_field(alloc, "Record", "attributes", Value::Object(entries))?;
    put_flag(&mut members, alloc, is_open, "additionalAttributes", true)?;
    Ok(members)
}
