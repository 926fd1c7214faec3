ghost use Rattle.std.specs.Prelude.{◌≡◌, None};
ghost use Rattle.std.specs.Option.{option_copied};
ghost use Rattle.schema_json.specs.declared.types.Type.{Variant};
ghost use Rattle.schema_json.specs.Shapes.{empty_record, is_empty_record, is_empty_type, type_place, record_type};

use crate::entity_type::AttributesOrContext;
use crate::types::{RecordType, Type, TypeVariant};
use cedar_data::{Loc, Map};
use std::alloc::Global;

impl<N> Type<N> {
    /// The type of this shape, without a place.
    pub fn from_variant(ty: TypeVariant<N>) -> Type<N>
        ensures { result ≡ Variant ty None }
    {
        Type::Variant { ty, loc: None }
    }

    /// Whether it is a closed record without attributes.
    pub fn is_empty_record(&self) -> bool
        ensures { result ≡ is_empty_type self.now }
    {
        match self {
            Type::Variant {
                ty: TypeVariant::Record(record),
                ..
            } => record.is_empty_record(),
            _ => false,
        }
    }

    /// The type's place.
    pub fn loc(&self) -> Option<&Loc>
        ensures { option_copied result ≡ type_place self.now }
    {
        match self {
            Type::Variant { loc, .. } => loc.as_ref(),
            Type::CommonTypeRef { loc, .. } => loc.as_ref(),
        }
    }
}

impl<N> RecordType<N> {
    /// The closed record without attributes, which takes no memory.
    pub fn default(alloc: Global) -> RecordType<N>
        ensures { result ≡ empty_record }
    {
        RecordType {
            attributes: Map::new(alloc),
            additional_attributes: false,
        }
    }

    /// Whether it is closed and has no attributes.
    pub fn is_empty_record(&self) -> bool
        ensures { result ≡ is_empty_record self.now }
    {
        if self.attributes.as_slice().is_empty() {
            !self.additional_attributes
        } else {
            false
        }
    }
}

impl<N> AttributesOrContext<N> {
    /// The closed record without attributes, without a place. It takes no memory.
    pub fn default(alloc: Global) -> AttributesOrContext<N>
        ensures { result.0 ≡ record_type empty_record }
    {
        AttributesOrContext::from_record(RecordType::default(alloc))
    }

    /// The type of these records, without a place.
    pub fn from_record(r: RecordType<N>) -> AttributesOrContext<N>
        ensures { result.0 ≡ record_type r }
    {
        AttributesOrContext(Type::from_variant(TypeVariant::Record(r)))
    }

    /// The type inside.
    pub fn into_inner(self) -> Type<N>
        ensures { result ≡ self.0 }
    {
        let AttributesOrContext(ty) = self;
        ty
    }

    /// Whether it is a closed record without attributes.
    pub fn is_empty_record(&self) -> bool
        ensures { result ≡ is_empty_type self.now.0 }
    {
        self.0.is_empty_record()
    }

    /// The type's place.
    pub fn loc(&self) -> Option<&Loc>
        ensures { option_copied result ≡ type_place self.now.0 }
    {
        self.0.loc()
    }
}
