// Types.
ghost use Rattle.schema_json_shapes.specs.Reads.{ReadsValue};
ghost use Rattle.schema_compat_convert.specs.Demands.{asks_type, asks_shape, asks_attributes};
ghost use Rattle.schema_compat_convert.specs.Converted.{TypeBecomes, ShapeBecomes, AttributesBecome};

use cedar_data::{Boxed, Map, Text};
use cedar_identifiers::{Annotations, RawName};
use schema_compat_types::{SchemaType, SchemaTypeVariant, TypeOfAttribute as OldAttribute};
use schema_json::{RecordType, Type, TypeOfAttribute, TypeVariant};
use schema_json_shapes::names::{read_id, read_raw_name};
use schema_json_shapes::{NameRole, ShapeFault};
use std::alloc::Global;

/// A type, or the first fault of a name in it.
#[cycle(types)]
pub fn convert_type(alloc: Global, ty: SchemaType) -> Result<Type<RawName>, ShapeFault>
    ensures { ReadsValue result (asks_type ty) (TypeBecomes ty) }
{
    match ty {
        SchemaType::Variant(shape) => Ok(Type::from_variant(convert_shape(alloc, shape)?)),
        SchemaType::TypeDef { type_name } => {
            let type_name = read_raw_name(alloc, NameRole::CommonType, type_name.as_str())?;
            Ok(Type::CommonTypeRef {
                type_name,
                loc: None,
            })
        }
    }
}

#[cycle(types)]
fn convert_shape(
    alloc: Global,
    shape: SchemaTypeVariant,
) -> Result<TypeVariant<RawName>, ShapeFault>
    ensures { ReadsValue result (asks_shape shape) (ShapeBecomes shape) }
{
    match shape {
        SchemaTypeVariant::String => Ok(TypeVariant::String),
        SchemaTypeVariant::Long => Ok(TypeVariant::Long),
        SchemaTypeVariant::Boolean => Ok(TypeVariant::Boolean),
        SchemaTypeVariant::Set { element } => {
            let element = convert_type(alloc, element.into_inner())?;
            let element = Boxed::new(alloc, element)?;
            Ok(TypeVariant::Set { element })
        }
        SchemaTypeVariant::Record {
            attributes,
            additional_attributes,
        } => {
            let attributes = convert_attributes(alloc, attributes.into_vec())?;
            Ok(TypeVariant::Record(RecordType {
                attributes: Map::from_sorted_vec(attributes),
                additional_attributes,
            }))
        }
        SchemaTypeVariant::Entity { name } => {
            let name = read_raw_name(alloc, NameRole::EntityType, name.as_str())?;
            Ok(TypeVariant::Entity { name })
        }
        SchemaTypeVariant::Extension { name } => {
            let name = read_id(alloc, NameRole::ExtensionType, name.as_str())?;
            Ok(TypeVariant::Extension { name })
        }
    }
}

// Attributes in order.
#[cycle(types)]
fn convert_attributes(
    alloc: Global,
    attributes: Vec<(Text, OldAttribute)>,
) -> Result<Vec<(Text, TypeOfAttribute<RawName>)>, ShapeFault>
    ensures { ReadsValue result (asks_attributes attributes.items)
        (λ out. AttributesBecome attributes.items out.items) }
{
    let mut out = Vec::new(alloc);
    for (name, attribute) in attributes {
        let OldAttribute { ty, required } = attribute;
        let ty = convert_type(alloc, ty)?;
        let annotations = Annotations::new(alloc);
        let attribute = TypeOfAttribute {
            ty,
            annotations,
            required,
        };
        out.push((name, attribute))?;
    }
    Ok(out)
}
