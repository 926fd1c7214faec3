ghost use Rattle.std.specs.Prelude.{◌≡◌, map, IfOk};
ghost use Rattle.schema_syntax_tree.specs.declared.types.AttrDecl.{out-AttrDecl};
ghost use Rattle.schema_convert_types.specs.Types.{type_at, type_of, record_of, record_of_attributes, attribute_of};

use crate::names::raw_name;
use cedar_data::{Boxed, List, Loc, Map, Node, Text};
use cedar_identifiers::RawName;
use schema_json::{RecordType, Type, TypeOfAttribute, TypeVariant};
use schema_syntax_tree::{Annotated, AttrDecl};
use std::alloc::{AllocError, Global};

/// What a type of the tree becomes. Each name in it is a reference to a common type or an entity type, each type and
/// name keeps its place, and of two attributes with one name in a record the last is there.
pub fn cedar_type_to_json_type(
    alloc: Global,
    ty: Node<schema_syntax_tree::Type<'_>>,
) -> Result<Type<RawName>, AllocError>
    ensures { IfOk result (λ shape. shape ≡ type_of ty.entry) }
{
    node_type(alloc, &ty)
}

/// What a type of the tree becomes, at its place.
pub fn node_type(
    alloc: Global,
    ty: &Node<schema_syntax_tree::Type<'_>>,
) -> Result<Type<RawName>, AllocError>
    ensures { IfOk result (λ shape. shape ≡ type_of ty.now) }
{
    type_at(alloc, &ty.node, ty.loc)
}

// What a type becomes at this place.
#[tactic(auto, using(crate::proofs::TypeSteps::set_at, crate::proofs::TypeSteps::ident_at, crate::proofs::TypeSteps::record_at))]
#[cycle(types)]
fn type_at(
    alloc: Global,
    ty: &schema_syntax_tree::Type<'_>,
    loc: Option<Loc>,
) -> Result<Type<RawName>, AllocError>
    ensures { IfOk result (λ shape. shape ≡ type_at ty.now loc) }
{
    match ty {
        schema_syntax_tree::Type::Set(element) => {
            let element = element.get();
            let element = type_at(alloc, &element.node, element.loc)?;
            let element = Boxed::new(alloc, element)?;
            Ok(Type::Variant {
                ty: TypeVariant::Set { element },
                loc,
            })
        }
        schema_syntax_tree::Type::Ident(path) => Ok(Type::Variant {
            ty: TypeVariant::EntityOrCommon {
                type_name: raw_name(alloc, path)?,
            },
            loc,
        }),
        schema_syntax_tree::Type::Record(attributes) => Ok(Type::Variant {
            ty: TypeVariant::Record(record_of(alloc, attributes.as_slice())?),
            loc,
        }),
    }
}

// The closed record of the attributes.
#[cycle(types)]
fn record_of<'a>(
    alloc: Global,
    attributes: &[Node<Annotated<'a, AttrDecl<'a>>>],
) -> Result<RecordType<RawName>, AllocError>
    ensures { IfOk result (λ shape. shape ≡ record_of (map attribute_of attributes.now)) }
{
    if attributes.is_empty() {
        return Ok(RecordType {
            attributes: Map::new(alloc),
            additional_attributes: false,
        });
    }
    let mut entries = Vec::with_capacity(alloc, attributes.len())?;
    for attribute in attributes {
        let ty = &attribute.node.item.ty;
        let ty = type_at(alloc, &ty.node, ty.loc)?;
        entries.push(attribute_with(alloc, attribute, ty)?)?;
    }
    closed_record(alloc, entries)
}

// The closed record of these attributes, of which the last of a name counts. It stands by itself for the same reason as
// an attribute does.
#[inline(never)]
fn closed_record(
    alloc: Global,
    entries: Vec<(Text, TypeOfAttribute<RawName>)>,
) -> Result<RecordType<RawName>, AllocError>
    ensures { IfOk result (λ shape. shape ≡ record_of entries.items) }
{
    let attributes = Map::from_entries(alloc, entries)?;
    Ok(RecordType {
        attributes,
        additional_attributes: false,
    })
}

// The attribute, whose type this is. It stands by itself, so that a level of nested records takes little of the stack.
#[inline(never)]
fn attribute_with<'a>(
    alloc: Global,
    attribute: &Node<Annotated<'a, AttrDecl<'a>>>,
    ty: Type<RawName>,
) -> Result<(Text, TypeOfAttribute<RawName>), AllocError>
    ensures { IfOk result (λ entry. ty ≡ type_at (out-AttrDecl attribute.now.node.item).ty.node
        (out-AttrDecl attribute.now.node.item).ty.loc → entry ≡ attribute_of attribute.now) }
{
    let declared = &attribute.node.item;
    let annotations = attribute.node.annotations.to_annotations(alloc)?;
    let name = declared.name.node.to_text(alloc)?;
    let of = TypeOfAttribute {
        ty,
        annotations,
        required: declared.required,
    };
    Ok((name, of))
}

/// What the attributes of an entity type or of a context become.
pub fn record_type<'a>(
    alloc: Global,
    attributes: &Node<List<Node<Annotated<'a, AttrDecl<'a>>>>>,
) -> Result<Type<RawName>, AllocError>
    ensures { IfOk result (λ shape. shape ≡ record_of_attributes attributes.now) }
{
    Ok(Type::Variant {
        ty: TypeVariant::Record(record_of(alloc, attributes.node.as_slice())?),
        loc: attributes.loc,
    })
}
