ghost use Rattle.std.specs.Prelude.{◌≡◌};
ghost use Rattle.schema_json.specs.Walk.{is_extension, is_extension_variant, is_extension_among};

use crate::types::{Type, TypeOfAttribute, TypeVariant};
use cedar_data::Text;

impl<N> Type<N> {
    /// Whether it is an extension type, or a set of one, or a record with an attribute of one; and `None` where a
    /// reference in it may mean one.
    #[cycle(extension)]
    pub fn is_extension(&self) -> Option<bool>
        ensures { result ≡ is_extension self.now }
    {
        match self {
            Type::Variant { ty, .. } => ty.is_extension(),
            Type::CommonTypeRef { .. } => None,
        }
    }
}

impl<N> TypeVariant<N> {
    // Whether a shape is one of an extension type, as a type is.
    #[cycle(extension)]
    fn is_extension(&self) -> Option<bool>
        ensures { result ≡ is_extension_variant self.now }
    {
        match self {
            TypeVariant::Set { element } => element.get().is_extension(),
            TypeVariant::Record(record) => is_extension_among(record.attributes.as_slice()),
            TypeVariant::EntityOrCommon { .. } => None,
            TypeVariant::Extension { .. } => Some(true),
            TypeVariant::String
            | TypeVariant::Long
            | TypeVariant::Boolean
            | TypeVariant::Entity { .. } => Some(false),
        }
    }
}

// Whether one of the attributes is of an extension type, and `None` where one gives that.
#[cycle(extension)]
fn is_extension_among<N>(entries: &[(Text, TypeOfAttribute<N>)]) -> Option<bool>
    ensures { result ≡ is_extension_among entries.now }
{
    let mut found = false;
    for (_, attribute) in entries {
        found |= attribute.ty.is_extension()?;
    }
    Some(found)
}
