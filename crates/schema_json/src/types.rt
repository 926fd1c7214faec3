ghost use Rattle.std.specs.Prelude.{◌≡◌, IfOk};
ghost use Rattle.schema_json.specs.Shapes.{with_place};

use cedar_data::{Boxed, CloneIn, Loc, Map, Text};
use cedar_identifiers::{Annotations, UnreservedId};
use std::alloc::{AllocError, Global};

/// A type as it is written in a fragment, with a place that no comparison sees.
#[cycle(types)]
#[derive_where(PartialEq, Eq, PartialOrd, Ord, Hash; N)]
pub enum Type<N> {
    /// A type of one of the shapes of `TypeVariant`.
    Variant {
        ty: TypeVariant<N>,
        #[derive_where(skip(EqHashOrd))]
        loc: Option<Loc>,
    },
    /// A reference that must mean a common type.
    CommonTypeRef {
        type_name: N,
        #[derive_where(skip(EqHashOrd))]
        loc: Option<Loc>,
    },
}

impl<N: Drop> Drop for Type<N> {
    #[cycle(drop)]
    fn drop(self) {
        match self {
            Type::Variant { ty: _ty, loc: _loc } => {}
            Type::CommonTypeRef {
                type_name: _type_name,
                loc: _loc,
            } => {}
        }
    }
}

impl<N> Type<N> {
    /// The type at this place, or without one.
    pub fn with_loc(self, new_loc: Option<Loc>) -> Type<N>
        ensures { result ≡ with_place new_loc self }
    {
        match self {
            Type::Variant { ty, loc: _ } => Type::Variant { ty, loc: new_loc },
            Type::CommonTypeRef { type_name, loc: _ } => Type::CommonTypeRef {
                type_name,
                loc: new_loc,
            },
        }
    }
}

/// The shape of a type.
#[cycle(types)]
#[derive_where(PartialEq, Eq, PartialOrd, Ord, Hash; N)]
pub enum TypeVariant<N> {
    String,
    Long,
    Boolean,
    /// The sets of a type.
    Set { element: Boxed<Type<N>> },
    /// The records with these attributes.
    Record(RecordType<N>),
    /// A reference that must mean an entity type.
    Entity { name: N },
    /// A reference that may mean a common type or an entity type.
    EntityOrCommon { type_name: N },
    /// A type of the extension table.
    Extension { name: UnreservedId },
}

impl<N: Drop> Drop for TypeVariant<N> {
    #[cycle(drop)]
    fn drop(self) {
        match self {
            TypeVariant::String => {}
            TypeVariant::Long => {}
            TypeVariant::Boolean => {}
            TypeVariant::Set { element: _element } => {}
            TypeVariant::Record(_value) => {}
            TypeVariant::Entity { name: _name } => {}
            TypeVariant::EntityOrCommon {
                type_name: _type_name,
            } => {}
            TypeVariant::Extension { name: _name } => {}
        }
    }
}

/// The records with these attributes, and with others where it is open.
#[cycle(types)]
#[derive_where(PartialEq, Eq, PartialOrd, Ord, Hash; N)]
pub struct RecordType<N> {
    pub attributes: Map<Text, TypeOfAttribute<N>>,
    /// Whether it is open: whether its records may have other attributes.
    pub additional_attributes: bool,
}

impl<N: Drop> Drop for RecordType<N> {
    #[cycle(drop)]
    fn drop(self) {
        let RecordType {
            attributes: _attributes,
            additional_attributes: _additional_attributes,
        } = self;
    }
}

/// The type of an attribute, and whether each record has the attribute.
#[cycle(types)]
#[derive_where(PartialEq, Eq, PartialOrd, Ord, Hash; N)]
pub struct TypeOfAttribute<N> {
    pub ty: Type<N>,
    pub annotations: Annotations,
    /// Whether each record has the attribute.
    pub required: bool,
}

impl<N: Drop> Drop for TypeOfAttribute<N> {
    #[cycle(drop)]
    fn drop(self) {
        let TypeOfAttribute {
            ty: _ty,
            annotations: _annotations,
            required: _required,
        } = self;
    }
}

impl<N: CloneIn> CloneIn for Type<N> {
    #[cycle(clone_in)]
    fn clone_in(&self, alloc: Global) -> Result<Self, AllocError> {
        match self {
            Type::Variant { ty, loc } => Ok(Type::Variant {
                ty: ty.clone_in(alloc)?,
                loc: *loc,
            }),
            Type::CommonTypeRef { type_name, loc } => Ok(Type::CommonTypeRef {
                type_name: type_name.clone_in(alloc)?,
                loc: *loc,
            }),
        }
    }
}

impl<N: CloneIn> CloneIn for TypeVariant<N> {
    #[cycle(clone_in)]
    fn clone_in(&self, alloc: Global) -> Result<Self, AllocError> {
        match self {
            TypeVariant::String => Ok(TypeVariant::String),
            TypeVariant::Long => Ok(TypeVariant::Long),
            TypeVariant::Boolean => Ok(TypeVariant::Boolean),
            TypeVariant::Set { element } => Ok(TypeVariant::Set {
                element: Boxed::new(alloc, element.get().clone_in(alloc)?)?,
            }),
            TypeVariant::Record(record) => Ok(TypeVariant::Record(record.clone_in(alloc)?)),
            TypeVariant::Entity { name } => Ok(TypeVariant::Entity {
                name: name.clone_in(alloc)?,
            }),
            TypeVariant::EntityOrCommon { type_name } => Ok(TypeVariant::EntityOrCommon {
                type_name: type_name.clone_in(alloc)?,
            }),
            TypeVariant::Extension { name } => Ok(TypeVariant::Extension {
                name: name.clone_in(alloc)?,
            }),
        }
    }
}

impl<N: CloneIn> CloneIn for RecordType<N> {
    #[cycle(clone_in)]
    fn clone_in(&self, alloc: Global) -> Result<Self, AllocError> {
        Ok(RecordType {
            attributes: Map::from_sorted_vec(clone_attributes(alloc, self.attributes.as_slice())?),
            additional_attributes: self.additional_attributes,
        })
    }
}

impl<N: CloneIn> CloneIn for TypeOfAttribute<N> {
    #[cycle(clone_in)]
    fn clone_in(&self, alloc: Global) -> Result<Self, AllocError> {
        Ok(TypeOfAttribute {
            ty: self.ty.clone_in(alloc)?,
            annotations: self.annotations.clone_in(alloc)?,
            required: self.required,
        })
    }
}

// Copies of the attributes, in order.
#[cycle(clone_in)]
fn clone_attributes<N: CloneIn>(
    alloc: Global,
    entries: &[(Text, TypeOfAttribute<N>)],
) -> Result<Vec<(Text, TypeOfAttribute<N>)>, AllocError>
    ensures { IfOk result (λ copy. copy.items ≡ entries.now) }
{
    let mut copy = Vec::new(alloc);
    for (name, attribute) in entries {
        let name = name.clone_in(alloc)?;
        let attribute = attribute.clone_in(alloc)?;
        copy.push((name, attribute))?;
    }
    Ok(copy)
}
