// Types, and the attributes of records.
ghost use Rattle.std.specs.Prelude.{◌≡◌, [], Some, true, false, codes, MatchResult};
ghost use Rattle.serde_json.specs.Data.{object, string};
ghost use Rattle.serde_json.specs.View.{view, members_view};
ghost use Rattle.serde_json.specs.Find.{get_member};
ghost use Rattle.schema_json.specs.declared.types.TypeOfAttribute.{roll-TypeOfAttribute};
ghost use Rattle.schema_json_shapes.specs.declared.words.TypeSite.{TypeSite as Site};
ghost use Rattle.schema_json_shapes.specs.Walk.{typed, attributes as attributes_role, demands, member_demands};
ghost use Rattle.schema_json_shapes.specs.Walk.{key_demands, word_fits, flag_or};
ghost use Rattle.schema_json_shapes.specs.Said.{IsType, IsTyped, SaysTyped, AreAttributes, HasAttributes, IsOptional};
ghost use Rattle.schema_json_shapes.specs.Said.{HasWord, plain};
ghost use Rattle.schema_json_shapes.specs.Inner.{HasInner, IsInner, inner_demands, made_demands, IsMade};
ghost use Rattle.schema_json_shapes.specs.Reads.{ReadsValue, IsDemandFault, field_demands};

use crate::annotations::annotations_at;
use crate::fields::{Members, at, check_fields, needed};
use crate::leaves::{flag_at, wrong_type};
use crate::name_role::NameRole;
use crate::names::{read_named, read_raw_name, read_word};
use crate::shape_fault::ShapeFault;
use crate::tables::type_fields;
use crate::words::{TypeSite, TypeWord, word_of};
use cedar_data::{Boxed, Map, Text};
use cedar_identifiers::{Annotations, RawName, UnreservedId};
use schema_json::{RecordType, Type, TypeOfAttribute, TypeVariant};
use serde_json::Value;
use std::alloc::Global;

/// A type with what may stand beside it.
#[derive(Drop)]
pub struct Typed {
    pub ty: Type<RawName>,
    pub annotations: Annotations,
    /// Whether each record has the attribute that the type is of.
    pub required: bool,
}

/// The type in a field that may be absent.
pub fn type_at(
    alloc: Global,
    members: &Members,
    name: &str,
) -> Result<Option<Type<RawName>>, ShapeFault>
    ensures { let o = get_member name.now (members_view members.now.entries) in
        ReadsValue result (field_demands (typed TypeSite.Plain) name.now o) (IsOptional IsType o) }
{
    match at(members, name) {
        Some(value) => {
            let typed = read_typed(alloc, value, name, TypeSite::Plain)?;
            Ok(Some(typed.ty))
        }
        None => Ok(None),
    }
}

/// The type in a field, in a box, where it is there.
pub fn boxed_type_at(
    alloc: Global,
    members: &Members,
    name: &str,
) -> Result<Option<Boxed<Type<RawName>>>, ShapeFault>
    ensures { let o = get_member name.now (members_view members.now.entries) in
        ReadsValue result (field_demands (typed TypeSite.Plain) name.now o) (IsOptional IsType o) }
{
    match type_at(alloc, members, name)? {
        Some(ty) => Ok(Some(Boxed::new(alloc, ty)?)),
        None => Ok(None),
    }
}

/// A type, an attribute or a common type.
#[cycle(types)]
pub fn read_typed(
    alloc: Global,
    value: &Value,
    label: &str,
    site: TypeSite,
) -> Result<Typed, ShapeFault>
    ensures { ReadsValue result (demands (typed site) label.now (view value.now))
        (λ t. SaysTyped (view value.now) t.ty t.annotations t.required) }
{
    match value.as_object() {
        Some(members) => read_object(alloc, members, site),
        None => Err(wrong_type(alloc, label)),
    }
}

#[cycle(types)]
fn read_object(alloc: Global, members: &Members, site: TypeSite) -> Result<Typed, ShapeFault>
    ensures { let ms = members_view members.now.entries in
        ReadsValue result (demands (typed site) [] (object ms)) (λ t. IsTyped ms t.ty t.annotations t.required) }
{
    let _ = members.len();
    let text = checked_word(alloc, members, site)?;
    let word = word_of(text);
    let is_open = flag_at(alloc, members, "additionalAttributes", false)?;
    let annotations = annotations_at(alloc, members)?;
    let shape = read_shape(alloc, members, word, is_open)?;
    let required = flag_at(alloc, members, "required", true)?;
    let ty = made(alloc, shape, text)?;
    Ok(Typed {
        ty,
        annotations,
        required,
    })
}

// What the word and the fields that go with it say, and nothing for a reference.
#[cycle(types)]
fn read_shape(
    alloc: Global,
    members: &Members,
    word: TypeWord,
    is_open: bool,
) -> Result<Option<TypeVariant<RawName>>, ShapeFault>
    requires word { HasWord (members_view members.now.entries) word }
    requires needed { HasInner word (members_view members.now.entries) }
    requires is_open { is_open ≡ flag_or false
        (get_member (codes "additionalAttributes") (members_view members.now.entries)) }
    ensures { ReadsValue result (inner_demands word (members_view members.now.entries))
        (IsInner word (members_view members.now.entries)) }
{
    match word {
        TypeWord::String => Ok(Some(TypeVariant::String)),
        TypeWord::Long => Ok(Some(TypeVariant::Long)),
        TypeWord::Boolean => Ok(Some(TypeVariant::Boolean)),
        TypeWord::Set => Ok(Some(read_set(alloc, members)?)),
        TypeWord::Record => Ok(Some(read_record(alloc, members, is_open)?)),
        TypeWord::Entity => Ok(Some(read_entity(alloc, members)?)),
        TypeWord::EntityOrCommon => Ok(Some(read_either(alloc, members)?)),
        TypeWord::Extension => Ok(Some(read_extension(alloc, members)?)),
        TypeWord::Reference => Ok(None),
    }
}

// The sets of a type.
#[cycle(types)]
fn read_set(alloc: Global, members: &Members) -> Result<TypeVariant<RawName>, ShapeFault>
    requires word { HasWord (members_view members.now.entries) TypeWord.Set }
    requires needed { HasInner TypeWord.Set (members_view members.now.entries) }
    ensures { let ms = members_view members.now.entries in
        ReadsValue result (inner_demands TypeWord.Set ms) (λ v. IsType (object ms) (plain v)) }
{
    let value = needed(members, "element");
    let typed = read_typed(alloc, value, "element", TypeSite::Plain)?;
    let element = Boxed::new(alloc, typed.ty)?;
    Ok(TypeVariant::Set { element })
}

// The records with these attributes.
#[cycle(types)]
fn read_record(
    alloc: Global,
    members: &Members,
    is_open: bool,
) -> Result<TypeVariant<RawName>, ShapeFault>
    requires word { HasWord (members_view members.now.entries) TypeWord.Record }
    requires needed { HasInner TypeWord.Record (members_view members.now.entries) }
    requires is_open { is_open ≡ flag_or false
        (get_member (codes "additionalAttributes") (members_view members.now.entries)) }
    ensures { let ms = members_view members.now.entries in
        ReadsValue result (inner_demands TypeWord.Record ms) (λ v. IsType (object ms) (plain v)) }
{
    let value = needed(members, "attributes");
    let attributes = read_attributes(alloc, value)?;
    Ok(TypeVariant::Record(RecordType {
        attributes,
        additional_attributes: is_open,
    }))
}

#[cycle(types)]
fn read_attributes(
    alloc: Global,
    value: &Value,
) -> Result<Map<Text, TypeOfAttribute<RawName>>, ShapeFault>
    ensures { ReadsValue result (demands attributes_role (codes "attributes") (view value.now))
        (HasAttributes (view value.now)) }
{
    match value.as_object() {
        Some(members) => {
            let entries = read_attribute_entries(alloc, members)?;
            Ok(Map::from_entries(alloc, entries)?)
        }
        None => Err(wrong_type(alloc, "attributes")),
    }
}

#[cycle(types)]
fn read_attribute_entries(
    alloc: Global,
    members: &Members,
) -> Result<Vec<(Text, TypeOfAttribute<RawName>)>, ShapeFault>
    ensures { let ms = members_view members.now.entries in
        ReadsValue result (member_demands (key_demands attributes_role) (λ k. typed TypeSite.Attribute) ms)
        (λ entries. AreAttributes ms entries.items) }
{
    let mut entries = Vec::with_capacity(alloc, members.len())?;
    for (key, value) in members {
        let typed = read_typed(alloc, value, key.as_str(), TypeSite::Attribute)?;
        let name = Text::from_str(alloc, key.as_str())?;
        entries.push((name, attribute(typed)))?;
    }
    Ok(entries)
}

fn attribute(typed: Typed) -> TypeOfAttribute<RawName>
    ensures { result ≡ roll-TypeOfAttribute RawName (record {
      ty = typed.ty;
      annotations = typed.annotations;
      required = typed.required;
    }) }
{
    let Typed {
        ty,
        annotations,
        required,
    } = typed;
    TypeOfAttribute {
        ty,
        annotations,
        required,
    }
}

// A reference that must mean an entity type.
fn read_entity(alloc: Global, members: &Members) -> Result<TypeVariant<RawName>, ShapeFault>
    requires word { HasWord (members_view members.now.entries) TypeWord.Entity }
    requires needed { HasInner TypeWord.Entity (members_view members.now.entries) }
    ensures { let ms = members_view members.now.entries in
        ReadsValue result (inner_demands TypeWord.Entity ms) (λ v. IsType (object ms) (plain v)) }
{
    let value = needed(members, "name");
    let name = read_named(alloc, NameRole::EntityType, value, "name")?;
    Ok(TypeVariant::Entity { name })
}

// A reference that may mean a common type or an entity type.
fn read_either(alloc: Global, members: &Members) -> Result<TypeVariant<RawName>, ShapeFault>
    requires word { HasWord (members_view members.now.entries) TypeWord.EntityOrCommon }
    requires needed { HasInner TypeWord.EntityOrCommon (members_view members.now.entries) }
    ensures { let ms = members_view members.now.entries in
        ReadsValue result (inner_demands TypeWord.EntityOrCommon ms) (λ v. IsType (object ms) (plain v)) }
{
    let value = needed(members, "name");
    let type_name = read_named(alloc, NameRole::EntityOrCommonType, value, "name")?;
    Ok(TypeVariant::EntityOrCommon { type_name })
}

// A type of the extension table.
fn read_extension(alloc: Global, members: &Members) -> Result<TypeVariant<RawName>, ShapeFault>
    requires word { HasWord (members_view members.now.entries) TypeWord.Extension }
    requires needed { HasInner TypeWord.Extension (members_view members.now.entries) }
    ensures { let ms = members_view members.now.entries in
        ReadsValue result (inner_demands TypeWord.Extension ms) (λ v. IsType (object ms) (plain v)) }
{
    let value = needed(members, "name");
    let name = read_word(alloc, NameRole::ExtensionType, value, "name")?;
    Ok(TypeVariant::Extension { name })
}

// The type of this shape, or a reference to a common type of this name.
fn made(
    alloc: Global,
    shape: Option<TypeVariant<RawName>>,
    text: &str,
) -> Result<Type<RawName>, ShapeFault>
    ensures { ReadsValue result (made_demands shape text.now) (IsMade shape text.now) }
{
    match shape {
        Some(shape) => Ok(Type::from_variant(shape)),
        None => {
            let type_name = read_raw_name(alloc, NameRole::CommonType, text)?;
            Ok(Type::CommonTypeRef {
                type_name,
                loc: None,
            })
        }
    }
}

// The word of a type whose object has its fields.
fn checked_word<'v>(
    alloc: Global,
    members: &'v Members,
    site: TypeSite,
) -> Result<&'v str, ShapeFault>
    ensures { let ms = members_view members.now.entries in
        ReadsValue result (word_fits site ms (get_member (codes "type") ms))
        (λ s. get_member (codes "type") ms ≡ Some (string s.now)) }
{
    let text = type_text(alloc, members)?;
    check_fields(alloc, type_fields(site, word_of(text)), members)?;
    Ok(text)
}

// The text of the member `type`.
fn type_text<'v>(alloc: Global, members: &'v Members) -> Result<&'v str, ShapeFault>
    ensures { let ms = members_view members.now.entries in
        MatchResult result (λ s. get_member (codes "type") ms ≡ Some (string s.now))
        (λ e. (site : Site) → IsDemandFault (word_fits site ms (get_member (codes "type") ms)) e) }
{
    match at(members, "type") {
        Some(Value::String(text)) => Ok(text.as_str()),
        Some(_) => Err(wrong_type(alloc, "type")),
        None => Err(ShapeFault::MissingField(Text::from_str(alloc, "type")?)),
    }
}
