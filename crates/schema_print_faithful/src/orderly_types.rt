ghost use Rattle.laws_written.specs.Printed.{AreProperNotes};
ghost use Rattle.schema_print_text.specs.PrintedTypes.{printed_variant, printed_entries};
ghost use Rattle.laws_print.specs.Printed.Textual.{components_written, IsRisingType, AreRisingAttributes};
ghost use Rattle.laws_print.specs.Printable.Orderly.{IsOrderlyType, AreOrderlyTags};

use cedar_data::{Boxed, Text};
use cedar_identifiers::{Annotations, RawName};
use schema_json::{Type, TypeOfAttribute, TypeVariant};

// Annotations rise by their keys.
pub fn annotations_rise(annotations: &Annotations)
    ensures { AreProperNotes annotations.now.0 }
{
    let _ = annotations.0.as_slice();
}

// Each type in memory is orderly.
#[cycle(orderly)]
pub fn type_is_orderly(ty: &Type<RawName>)
    ensures { IsOrderlyType ty.now }
{
    match ty {
        Type::Variant { ty, .. } => shape_is_orderly(ty),
        Type::CommonTypeRef { .. } => {}
    }
}

// A type of this shape is orderly.
#[cycle(orderly)]
fn shape_is_orderly(shape: &TypeVariant<RawName>)
    ensures { IsRisingType (printed_variant components_written shape.now) }
{
    match shape {
        TypeVariant::Set { element } => type_is_orderly(element.get()),
        TypeVariant::Record(record) => attributes_are_orderly(record.attributes.as_slice()),
        TypeVariant::String
        | TypeVariant::Long
        | TypeVariant::Boolean
        | TypeVariant::Entity { .. }
        | TypeVariant::EntityOrCommon { .. }
        | TypeVariant::Extension { .. } => {}
    }
}

// The types of attributes are orderly, and their annotations rise.
#[cycle(orderly)]
fn attributes_are_orderly(entries: &[(Text, TypeOfAttribute<RawName>)])
    ensures { AreRisingAttributes (printed_entries components_written entries.now) }
{
    for (_, attribute) in entries {
        annotations_rise(&attribute.annotations);
        type_is_orderly(&attribute.ty);
    }
}

// The type of tags is orderly, where there is one.
pub fn tags_are_orderly(tags: &Option<Boxed<Type<RawName>>>)
    ensures { AreOrderlyTags tags.now }
{
    match tags {
        Some(ty) => type_is_orderly(ty.get()),
        None => {}
    }
}
