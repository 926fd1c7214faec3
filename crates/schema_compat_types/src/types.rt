use cedar_data::{Boxed, Map, Text};

/// A type: the object with the member `type`.
#[cycle(types)]
#[derive(PartialEq, Eq, Drop)]
pub enum SchemaType {
    /// A type whose word names a shape, and whose fields are those of the shape.
    Variant(SchemaTypeVariant),
    /// A reference to a common type, which is named by the member `type`.
    TypeDef { type_name: Text },
}

/// The shape of a type, named by the member `type`.
#[cycle(types)]
#[derive(PartialEq, Eq, Drop)]
pub enum SchemaTypeVariant {
    String,
    Long,
    Boolean,
    /// The sets of the type in the member `element`.
    Set {
        element: Boxed<SchemaType>,
    },
    /// The records with the members of the object `attributes`, and with others where `additionalAttributes` is true.
    Record {
        attributes: Map<Text, TypeOfAttribute>,
        additional_attributes: bool,
    },
    /// The entity type with the text of the member `name`.
    Entity {
        name: Text,
    },
    /// The extension type with the text of the member `name`.
    Extension {
        name: Text,
    },
}

/// An attribute: a type, which may have the member `required` beside it. Where there is none, it is required.
#[cycle(types)]
#[derive(PartialEq, Eq, Drop)]
pub struct TypeOfAttribute {
    pub ty: SchemaType,
    pub required: bool,
}
