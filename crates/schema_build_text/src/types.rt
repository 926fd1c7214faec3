ghost use Rattle.std.specs.Prelude.{◌≡◌, ◌++◌, ℕ, OnOk, IfSome, true, codes};
ghost use Rattle.cedar_names.specs.CanonicalText.{type_text, lines_text, record_text, spaces};
ghost use Rattle.schema_build_types.specs.Content.{type_content, attributes_content};
ghost use Rattle.schema_build_text.specs.Adds.{Adds};
ghost use Rattle.schema_build_text.specs.Readings.{plain_type, plain_attributes};

use crate::pushing::{deeper, push, push_attribute_name, push_mark, push_spaces};
use crate::rows::push_entity_name;
use cedar_data::Text;
use schema_build_types::Type;
use std::alloc::{AllocError, Global};

/// Adds the type at this indentation.
#[cycle(push_type)]
pub fn push_type(text: &mut String, alloc: Global, base: usize, ty: &Type) -> Result<(), AllocError>
    ensures { OnOk result (Adds text.old text.new (type_text true base (plain_type (type_content ty.now)))) }
{
    match ty {
        Type::Never | Type::AnyBool | Type::True | Type::False => push(text, "__cedar::Bool"),
        Type::Long => push(text, "__cedar::Long"),
        Type::String => push(text, "__cedar::String"),
        Type::Set { element } => match element {
            Some(element) => {
                push(text, "Set<")?;
                push_type(text, alloc, base, element.get())?;
                push(text, ">")
            }
            None => {
                push(text, "Set<{")?;
                push_spaces(text, base)?;
                push(text, "}>")
            }
        },
        Type::Record { attrs, .. } => push_record(text, alloc, base, attrs.as_slice()),
        Type::Entity { names } => push_entity_name(text, alloc, names.get()),
        Type::AnyEntity => {
            push(text, "{")?;
            push_spaces(text, base)?;
            push(text, "}")
        }
        Type::Extension { name } => {
            push(text, "__cedar::")?;
            push(text, name.as_str())
        }
    }
}

// What stands behind the name of a required attribute that is a set of a built-in type, to the end of its line.
fn set_line(element: &Type) -> Option<&'static str>
    ensures { IfSome result (λ line. (base : ℕ) → line.now ≡ codes ": Set<" ++ (type_text true base (plain_type
        (type_content element.now)) ++ codes ">,\n")) }
{
    match element {
        Type::Never | Type::AnyBool | Type::True | Type::False => Some(": Set<__cedar::Bool>,\n"),
        Type::Long => Some(": Set<__cedar::Long>,\n"),
        Type::String => Some(": Set<__cedar::String>,\n"),
        Type::Set { .. } | Type::Record { .. } | Type::Entity { .. } => None,
        Type::AnyEntity | Type::Extension { .. } => None,
    }
}

// What stands behind the name of a required attribute of a built-in type, to the end of its line.
fn short_line(ty: &Type) -> Option<&'static str>
    ensures { IfSome result (λ line. (base : ℕ) → line.now ≡ codes ": " ++ (type_text true base (plain_type
        (type_content ty.now)) ++ codes ",\n")) }
{
    match ty {
        Type::Never | Type::AnyBool | Type::True | Type::False => Some(": __cedar::Bool,\n"),
        Type::Long => Some(": __cedar::Long,\n"),
        Type::String => Some(": __cedar::String,\n"),
        Type::Set { element } => match element {
            Some(element) => set_line(element.get()),
            None => None,
        },
        Type::Record { .. } | Type::Entity { .. } => None,
        Type::AnyEntity | Type::Extension { .. } => None,
    }
}

// Adds what stands behind the name of a required attribute, to the end of its line.
#[cycle(push_type)]
fn push_line(text: &mut String, alloc: Global, base: usize, ty: &Type) -> Result<(), AllocError>
    ensures { OnOk result (Adds text.old text.new (codes ": " ++ (type_text true base (plain_type (type_content ty.now))
        ++ codes ",\n"))) }
{
    match short_line(ty) {
        Some(line) => push(text, line),
        None => {
            push(text, ": ")?;
            push_type(text, alloc, base, ty)?;
            push(text, ",\n")
        }
    }
}

/// Adds the record of these attributes at this indentation: each attribute on a line of its own, two deeper.
#[cycle(push_type)]
pub fn push_record(
    text: &mut String,
    alloc: Global,
    base: usize,
    entries: &[(Text, (Type, bool))],
) -> Result<(), AllocError>
    ensures { OnOk result (Adds text.old text.new
        (record_text true base (plain_attributes (attributes_content entries.now)))) }
{
    if entries.is_empty() {
        push(text, "{")?;
        push_spaces(text, base)?;
        push(text, "}")?;
        return Ok(());
    }
    push(text, "{\n")?;
    push_members(text, alloc, base, entries)
}

/// Adds what stands behind the first line of the record of these attributes at this indentation.
#[cycle(push_type)]
pub fn push_members(
    text: &mut String,
    alloc: Global,
    base: usize,
    entries: &[(Text, (Type, bool))],
) -> Result<(), AllocError>
    ensures { OnOk result (Adds text.old text.new
        (lines_text true base (plain_attributes (attributes_content entries.now)) ++ (spaces base ++ codes "}"))) }
{
    push_entries(text, alloc, base, entries)?;
    push_spaces(text, base)?;
    push(text, "}")
}

// Adds the lines of the attributes of a record that stands at this indentation.
#[cycle(push_type)]
fn push_entries(
    text: &mut String,
    alloc: Global,
    base: usize,
    entries: &[(Text, (Type, bool))],
) -> Result<(), AllocError>
    ensures { OnOk result (Adds text.old text.new
        (lines_text true base (plain_attributes (attributes_content entries.now)))) }
{
    let inner = deeper(base)?;
    for (name, (ty, required)) in entries {
        push_spaces(text, inner)?;
        push_attribute_name(text, name)?;
        push_mark(text, *required)?;
        push_line(text, alloc, inner, ty)?;
    }
    Ok(())
}
