ghost use Rattle.std.specs.Prelude.{◌≡◌};
ghost use Rattle.schema_syntax_tree.specs.declared.primitive_type.PrimitiveType.{PrimitiveType};
ghost use Rattle.schema_convert_types.specs.Primitives.{primitive_variant};

use schema_json::TypeVariant;
use schema_syntax_tree::PrimitiveType;

/// What stands for one of the primitive types.
pub trait IntoVariant {
    ghost primitive: { Self → PrimitiveType };

    /// The shape of that type, in a fragment with any names.
    fn into_variant<N>(self) -> TypeVariant<N>
        ensures { result ≡ primitive_variant (primitive self) };
}

impl IntoVariant for PrimitiveType {
    ghost primitive = { λ ty. ty };

    fn into_variant<N>(self) -> TypeVariant<N> {
        match self {
            PrimitiveType::Long => TypeVariant::Long,
            PrimitiveType::String => TypeVariant::String,
            PrimitiveType::Bool => TypeVariant::Boolean,
        }
    }
}
