// Types.
ghost use Rattle.std.specs.Prelude.{◌≡◌, ◌∷◌, ◌++◌, ℕ, List, OnOk, map, not, true, false, codes};
ghost use Rattle.std.specs.Map.{keys_of};
ghost use Rattle.std.specs.List.Sorted.{IsStrictlySortedBy};
ghost use Rattle.cedar_data.specs.Text.{text_cmp};
ghost use Rattle.schema_json_values.specs.TypeValues.{object_of, type_members, variant_members, attribute_entry};
ghost use Rattle.schema_json_values.specs.TypeValues.{type_value, with_word};
ghost use Rattle.schema_json_quotes.specs.Adds.{Adds};
ghost use Rattle.schema_json_text.specs.AddsValue.{AddsValue};
ghost use Rattle.schema_json_text.specs.Members.{ahead, annotations_ahead, member_behind, described, flag_value};
ghost use Rattle.schema_json_text.specs.Members.{named_type, record_start, word_end};

use crate::annotations::push_annotations;
use crate::leaves::push_key;
use cedar_data::Text;
use cedar_identifiers::{Annotations, NameText};
use schema_json::{RecordType, Type, TypeOfAttribute, TypeVariant};
use schema_json_quotes::pushing::{push, push_char};
use schema_json_quotes::quotes::{push_escaped, push_quoted};
use std::alloc::{AllocError, Global};

// Begins the object of a type, up to this field. `start` is the brace and the field.
fn push_open(
    out: &mut String,
    annotations: &Annotations,
    start: &str,
    field: &str,
) -> Result<(), AllocError>
    requires { start.now ≡ 123 ∷ field.now }
    ensures { OnOk result (Adds out.old out.new (123 ∷ (annotations_ahead annotations.now.0 ++ field.now))) }
{
    if annotations.is_empty() {
        return push(out, start);
    }
    push_char(out, '{')?;
    push_annotations(out, annotations)?;
    push(out, field)
}

// Begins the object of a type of records, up to its attributes.
fn push_record_open(
    out: &mut String,
    is_open: bool,
    annotations: &Annotations,
) -> Result<(), AllocError>
    ensures { OnOk result (Adds out.old out.new (record_start is_open annotations.now.0)) }
{
    if is_open {
        push(out, "{\"additionalAttributes\":true,")?;
        push_annotations(out, annotations)?;
        return push(out, "\"attributes\":");
    }
    push_open(out, annotations, "{\"attributes\":", "\"attributes\":")
}

// Adds that the attribute is not required, where it is not, ahead of a further member.
fn push_optional_ahead(out: &mut String, required: bool) -> Result<(), AllocError>
    ensures { OnOk result (Adds out.old out.new (ahead (codes "required") (flag_value (not required) false))) }
{
    if required {
        return Ok(());
    }
    push(out, "\"required\":false,")
}

// Adds that the attribute is not required, where it is not, behind another member.
fn push_optional_behind(out: &mut String, required: bool) -> Result<(), AllocError>
    ensures { OnOk result (Adds out.old out.new
        (member_behind true (codes "required") (flag_value (not required) false))) }
{
    if required {
        return Ok(());
    }
    push(out, ",\"required\":false")
}

// Ends the object of a type behind its field: whether it is required, and its word.
fn push_end(out: &mut String, required: bool, end: &str) -> Result<(), AllocError>
    ensures { OnOk result (Adds out.old out.new (member_behind true (codes "required") (flag_value (not required) false)
        ++ end.now)) }
{
    push_optional_behind(out, required)?;
    push(out, end)
}

// Adds a type that is a word.
fn push_word(
    out: &mut String,
    annotations: &Annotations,
    required: bool,
    word: &str,
) -> Result<(), AllocError>
    ensures { OnOk result (AddsValue out.old out.new (described annotations.now.0 required (with_word word.now))) }
{
    push_char(out, '{')?;
    push_annotations(out, annotations)?;
    push_optional_ahead(out, required)?;
    push(out, "\"type\":")?;
    push_quoted(out, word)?;
    push_char(out, '}')
}

// Adds a type that has a name. `end` is its word.
fn push_named(
    out: &mut String,
    annotations: &Annotations,
    required: bool,
    name: &str,
    end: &str,
) -> Result<(), AllocError>
    ensures { OnOk result ((word : List ℕ) → end.now ≡ word_end word
        → AddsValue out.old out.new (named_type annotations.now.0 required name.now word)) }
{
    push_open(out, annotations, "{\"name\":\"", "\"name\":\"")?;
    push_escaped(out, name)?;
    push_char(out, '"')?;
    push_end(out, required, end)
}

/// Adds a type with its annotations, and whether it is required.
#[cycle(types)]
pub fn push_annotated<N: NameText>(
    out: &mut String,
    alloc: Global,
    ty: &Type<N>,
    annotations: &Annotations,
    required: bool,
) -> Result<(), AllocError>
    ensures { OnOk result (AddsValue out.old out.new
        (described annotations.now.0 required (type_members N.components ty.now))) }
{
    match ty {
        Type::Variant { ty, .. } => push_variant(out, alloc, ty, annotations, required),
        Type::CommonTypeRef { type_name, .. } => {
            let text = type_name.text(alloc)?;
            push_word(out, annotations, required, text.as_str())
        }
    }
}

#[cycle(types)]
fn push_variant<N: NameText>(
    out: &mut String,
    alloc: Global,
    ty: &TypeVariant<N>,
    annotations: &Annotations,
    required: bool,
) -> Result<(), AllocError>
    ensures { OnOk result (AddsValue out.old out.new
        (described annotations.now.0 required (variant_members N.components ty.now))) }
{
    match ty {
        TypeVariant::String => push_word(out, annotations, required, "String"),
        TypeVariant::Long => push_word(out, annotations, required, "Long"),
        TypeVariant::Boolean => push_word(out, annotations, required, "Boolean"),
        TypeVariant::Set { element } => {
            push_open(out, annotations, "{\"element\":", "\"element\":")?;
            let none = Annotations::new(alloc);
            push_annotated(out, alloc, element.get(), &none, true)?;
            push_end(out, required, ",\"type\":\"Set\"}")
        }
        TypeVariant::Record(record) => {
            push_record_open(out, record.additional_attributes, annotations)?;
            push_attributes(out, alloc, record.attributes.as_slice())?;
            push_end(out, required, ",\"type\":\"Record\"}")
        }
        TypeVariant::Entity { name } => {
            let text = name.text(alloc)?;
            push_named(
                out,
                annotations,
                required,
                text.as_str(),
                ",\"type\":\"Entity\"}",
            )
        }
        TypeVariant::EntityOrCommon { type_name } => {
            let text = type_name.text(alloc)?;
            push_named(
                out,
                annotations,
                required,
                text.as_str(),
                ",\"type\":\"EntityOrCommon\"}",
            )
        }
        TypeVariant::Extension { name } => {
            push_named(
                out,
                annotations,
                required,
                name.as_str(),
                ",\"type\":\"Extension\"}",
            )
        }
    }
}

// Adds the object of the attributes.
#[cycle(types)]
fn push_attributes<N: NameText>(
    out: &mut String,
    alloc: Global,
    entries: &[(Text, TypeOfAttribute<N>)],
) -> Result<(), AllocError>
    requires { IsStrictlySortedBy text_cmp (keys_of entries.now) }
    ensures { OnOk result (AddsValue out.old out.new (object_of (map (attribute_entry N.components) entries.now))) }
{
    push_char(out, '{')?;
    let mut later = false;
    for (name, attribute) in entries {
        push_key(out, later, name.as_str())?;
        push_annotated(
            out,
            alloc,
            &attribute.ty,
            &attribute.annotations,
            attribute.required,
        )?;
        later = true;
    }
    push_char(out, '}')
}

/// Adds the JSON text of a type.
pub fn push_type<N: NameText>(
    out: &mut String,
    alloc: Global,
    ty: &Type<N>,
) -> Result<(), AllocError>
    ensures { OnOk result (AddsValue out.old out.new (type_value N.components ty.now)) }
{
    let none = Annotations::new(alloc);
    push_annotated(out, alloc, ty, &none, true)
}
