// The objects of types.
ghost use Rattle.std.specs.Prelude.{◌≡◌, true, false, codes, IfOk};
ghost use Rattle.serde_json.specs.View.{view, members_view};
ghost use Rattle.serde_json.specs.Find.{get_member, as_object};
ghost use Rattle.schema_json_shapes.specs.Said.{HasWord};
ghost use Rattle.schema_compat_shapes.specs.OldTypes.{is_text, object_members, is_old_attribute, are_all_attributes};
ghost use Rattle.schema_compat_shapes.specs.OldTypes.{are_old_attributes, is_old_type, inner_reads, SaysOldType};
ghost use Rattle.schema_compat_shapes.specs.OldTypes.{SaysOldVariant, SayOldAttributes};
ghost use Rattle.schema_compat_shapes.specs.OldParts.{IsOldAttribute};

use crate::readable::{attributes_in, flag_in, reads_as_shape, text_in, type_in};
use cedar_data::{Boxed, Map, Text};
use schema_compat_types::{SchemaType, SchemaTypeVariant, TypeOfAttribute};
use schema_json_shapes::TypeWord;
use schema_json_shapes::fields::Members;
use schema_json_shapes::words::word_of;
use serde_json::Value;
use std::alloc::{AllocError, Global};

// The type that an object with a text as its member `type` says, where it stands as an attribute or not.
#[cycle(types)]
pub(crate) fn read_type(
    alloc: Global,
    members: &Members,
    as_attribute: bool,
) -> Result<SchemaType, AllocError>
    requires { is_text (get_member (codes "type") (members_view members.now.entries)) ≡ true }
    ensures { IfOk result (λ t. SaysOldType as_attribute (members_view members.now.entries) t) }
{
    let text = text_in(members, "type");
    let word = word_of(text);
    if reads_as_shape(members, word, as_attribute) {
        Ok(SchemaType::Variant(read_variant(alloc, members, word)?))
    } else {
        let type_name = Text::from_str(alloc, text)?;
        Ok(SchemaType::TypeDef { type_name })
    }
}

// The shape of an object whose fields read.
#[cycle(types)]
fn read_variant(
    alloc: Global,
    members: &Members,
    word: TypeWord,
) -> Result<SchemaTypeVariant, AllocError>
    requires word { HasWord (members_view members.now.entries) word }
    requires reads { inner_reads word (members_view members.now.entries) ≡ true }
    ensures { IfOk result (λ v. SaysOldVariant (members_view members.now.entries) v) }
{
    match word {
        TypeWord::String => Ok(SchemaTypeVariant::String),
        TypeWord::Long => Ok(SchemaTypeVariant::Long),
        TypeWord::Boolean => Ok(SchemaTypeVariant::Boolean),
        TypeWord::Set => read_set(alloc, members),
        TypeWord::Record => read_record(alloc, members),
        TypeWord::Entity => read_entity(alloc, members),
        TypeWord::Extension => read_extension(alloc, members),
        TypeWord::EntityOrCommon | TypeWord::Reference => unreachable!(),
    }
}

// The sets of a type.
#[cycle(types)]
fn read_set(alloc: Global, members: &Members) -> Result<SchemaTypeVariant, AllocError>
    requires word { HasWord (members_view members.now.entries) TypeWord.Set }
    requires reads { is_old_type (object_members (get_member (codes "element") (members_view members.now.entries)))
        ≡ true }
    ensures { IfOk result (λ v. SaysOldVariant (members_view members.now.entries) v) }
{
    let inner = type_in(members, "element");
    let ty = read_type(alloc, inner, false)?;
    let element = Boxed::new(alloc, ty)?;
    Ok(SchemaTypeVariant::Set { element })
}

// The records with these attributes.
#[cycle(types)]
fn read_record(alloc: Global, members: &Members) -> Result<SchemaTypeVariant, AllocError>
    requires word { HasWord (members_view members.now.entries) TypeWord.Record }
    requires reads { let ms = members_view members.now.entries in
        are_old_attributes (object_members (get_member (codes "attributes") ms)) ≡ true }
    ensures { IfOk result (λ v. SaysOldVariant (members_view members.now.entries) v) }
{
    let inner = attributes_in(members, "attributes");
    let entries = read_attributes(alloc, inner)?;
    let attributes = Map::from_entries(alloc, entries)?;
    let additional_attributes = flag_in(members, "additionalAttributes", false);
    Ok(SchemaTypeVariant::Record {
        attributes,
        additional_attributes,
    })
}

// The attributes of a record, one after another.
#[cycle(types)]
fn read_attributes(
    alloc: Global,
    members: &Members,
) -> Result<Vec<(Text, TypeOfAttribute)>, AllocError>
    requires { are_all_attributes (members_view members.now.entries) ≡ true }
    ensures { IfOk result (λ entries. SayOldAttributes (members_view members.now.entries) entries.items) }
{
    let mut entries = Vec::new(alloc);
    for (key, value) in members {
        let attribute = read_attribute(alloc, value)?;
        let name = Text::from_str(alloc, key.as_str())?;
        entries.push((name, attribute))?;
    }
    Ok(entries)
}

#[cycle(types)]
fn read_attribute(alloc: Global, value: &Value) -> Result<TypeOfAttribute, AllocError>
    requires { is_old_attribute (as_object (view value.now)) ≡ true }
    ensures { IfOk result (λ a. IsOldAttribute (view value.now) a) }
{
    match value.as_object() {
        Some(members) => {
            let ty = read_type(alloc, members, true)?;
            let required = flag_in(members, "required", true);
            Ok(TypeOfAttribute { ty, required })
        }
        None => unreachable!(),
    }
}

// The entity type of this name.
fn read_entity(alloc: Global, members: &Members) -> Result<SchemaTypeVariant, AllocError>
    requires word { HasWord (members_view members.now.entries) TypeWord.Entity }
    requires reads { is_text (get_member (codes "name") (members_view members.now.entries)) ≡ true }
    ensures { IfOk result (λ v. SaysOldVariant (members_view members.now.entries) v) }
{
    let name = Text::from_str(alloc, text_in(members, "name"))?;
    Ok(SchemaTypeVariant::Entity { name })
}

// The extension type of this name.
fn read_extension(alloc: Global, members: &Members) -> Result<SchemaTypeVariant, AllocError>
    requires word { HasWord (members_view members.now.entries) TypeWord.Extension }
    requires reads { is_text (get_member (codes "name") (members_view members.now.entries)) ≡ true }
    ensures { IfOk result (λ v. SaysOldVariant (members_view members.now.entries) v) }
{
    let name = Text::from_str(alloc, text_in(members, "name"))?;
    Ok(SchemaTypeVariant::Extension { name })
}
