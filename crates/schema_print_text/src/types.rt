ghost use Rattle.std.specs.Prelude.{◌≡◌, OnOk, true};
ghost use Rattle.schema_syntax_tokens.specs.Laid.{laid};
ghost use Rattle.laws_written.specs.Printed.{type_pieces, lines_pieces};
ghost use Rattle.laws_written.specs.Written.{rec};
ghost use Rattle.schema_print_text.specs.Adds.{Adds};
ghost use Rattle.schema_print_text.specs.PrintedTypes.{is_bare_record, printed_type, printed_variant, printed_entries};
ghost use Rattle.schema_print_text.specs.PrintedTypes.{printed_type_text};

use crate::notes::{push_attribute_name, push_colon, push_notes};
use crate::pushing::{deeper, push, push_name, push_spaces};
use cedar_data::Text;
use cedar_identifiers::NameText;
use schema_json::{Type, TypeOfAttribute, TypeVariant};
use std::alloc::{AllocError, Global};

/// Adds the type at this indentation.
#[cycle(push_type)]
pub fn push_type<N: NameText>(
    text: &mut Text,
    alloc: Global,
    base: usize,
    ty: &Type<N>,
) -> Result<(), AllocError>
    ensures { OnOk result (Adds text.old text.new (printed_type_text N.components base ty.now)) }
{
    match ty {
        Type::Variant { ty, .. } => push_variant(text, alloc, base, ty),
        Type::CommonTypeRef { type_name, .. } => push_name(text, alloc, type_name),
    }
}

// Adds a shape of a type at this indentation.
#[cycle(push_type)]
fn push_variant<N: NameText>(
    text: &mut Text,
    alloc: Global,
    base: usize,
    ty: &TypeVariant<N>,
) -> Result<(), AllocError>
    ensures { OnOk result (Adds text.old text.new
        (laid (type_pieces true base (printed_variant N.components ty.now)))) }
{
    match ty {
        TypeVariant::String => push(text, "__cedar::String"),
        TypeVariant::Long => push(text, "__cedar::Long"),
        TypeVariant::Boolean => push(text, "__cedar::Bool"),
        TypeVariant::Set { element } => {
            push(text, "Set<")?;
            push_type(text, alloc, base, element.get())?;
            push(text, ">")
        }
        TypeVariant::Record(record) => push_record(text, alloc, base, record.attributes.as_slice()),
        TypeVariant::Entity { name } => push_name(text, alloc, name),
        TypeVariant::EntityOrCommon { type_name } => push_name(text, alloc, type_name),
        TypeVariant::Extension { name } => {
            push(text, "__cedar::")?;
            push(text, name.as_str())
        }
    }
}

/// Adds the record of these attributes at this indentation: each attribute on a line of its own, two deeper.
#[cycle(push_type)]
pub fn push_record<N: NameText>(
    text: &mut Text,
    alloc: Global,
    base: usize,
    entries: &[(Text, TypeOfAttribute<N>)],
) -> Result<(), AllocError>
    ensures { OnOk result (Adds text.old text.new
        (laid (type_pieces true base (rec (printed_entries N.components entries.now))))) }
{
    if entries.is_empty() {
        push(text, "{")?;
        push_spaces(text, base)?;
        push(text, "}")?;
        return Ok(());
    }
    push(text, "{\n")?;
    push_entries(text, alloc, base, entries)?;
    push_spaces(text, base)?;
    push(text, "}")
}

// Adds the lines of the attributes of a record that stands at this indentation.
#[cycle(push_type)]
fn push_entries<N: NameText>(
    text: &mut Text,
    alloc: Global,
    base: usize,
    entries: &[(Text, TypeOfAttribute<N>)],
) -> Result<(), AllocError>
    ensures { OnOk result (Adds text.old text.new
        (laid (lines_pieces true base (printed_entries N.components entries.now)))) }
{
    let inner = deeper(base)?;
    for (name, attribute) in entries {
        push_notes(text, inner, &attribute.annotations)?;
        push_spaces(text, inner)?;
        push_attribute_name(text, name)?;
        push_colon(text, attribute.required)?;
        push_type(text, alloc, inner, &attribute.ty)?;
        push(text, ",\n")?;
    }
    Ok(())
}

/// Whether the type is a record without attributes, open or closed.
pub fn has_no_attributes<N: NameText>(ty: &Type<N>) -> bool
    ensures { result ≡ is_bare_record (printed_type N.components ty.now) }
{
    match ty {
        Type::Variant { ty, .. } => is_bare_variant(ty),
        Type::CommonTypeRef { .. } => false,
    }
}

// Whether the shape is one of records without attributes.
fn is_bare_variant<N: NameText>(ty: &TypeVariant<N>) -> bool
    ensures { result ≡ is_bare_record (printed_variant N.components ty.now) }
{
    match ty {
        TypeVariant::Record(record) => record.attributes.as_slice().is_empty(),
        TypeVariant::Set { .. } => false,
        TypeVariant::Entity { .. } => false,
        TypeVariant::EntityOrCommon { .. } => false,
        TypeVariant::Extension { .. } => false,
        TypeVariant::String | TypeVariant::Long | TypeVariant::Boolean => false,
    }
}
