ghost use Rattle.std.specs.Prelude.{◌≡◌, ◌↔◌, true, [], ◌∷◌};
ghost use Rattle.schema_build_types.specs.Content.{type_content, attributes_content};

use crate::joined::same_joined_names;
use cedar_data::Text;
use schema_build_types::Type;

/// Whether the types say the same.
#[cycle(same_type)]
pub fn same_type(a: &Type, b: &Type) -> bool
    ensures { result ≡ true ↔ type_content a.now ≡ type_content b.now }
{
    match a {
        Type::Never => matches!(b, Type::Never),
        Type::AnyBool => matches!(b, Type::AnyBool),
        Type::True => matches!(b, Type::True),
        Type::False => matches!(b, Type::False),
        Type::Long => matches!(b, Type::Long),
        Type::String => matches!(b, Type::String),
        Type::AnyEntity => matches!(b, Type::AnyEntity),
        Type::Set { element: None } => matches!(b, Type::Set { element: None }),
        Type::Set {
            element: Some(of_a),
        } => match b {
            Type::Set {
                element: Some(of_b),
            } => same_type(of_a.get(), of_b.get()),
            _ => false,
        },
        Type::Record { attrs, more } => match b {
            Type::Record {
                attrs: attrs_b,
                more: more_b,
            } => {
                if *more == *more_b {
                    same_attributes(attrs.as_slice(), attrs_b.as_slice())
                } else {
                    false
                }
            }
            _ => false,
        },
        Type::Entity { names } => match b {
            Type::Entity { names: names_b } => same_joined_names(names.get(), names_b.get()),
            _ => false,
        },
        Type::Extension { name } => match b {
            Type::Extension { name: name_b } => *name == *name_b,
            _ => false,
        },
    }
}

// Whether the attributes have one name and one required mark, and their types say the same.
#[cycle(same_type)]
fn same_attribute(a: &(Text, (Type, bool)), b: &(Text, (Type, bool))) -> bool
    ensures { result ≡ true ↔ attributes_content (a.now ∷ []) ≡ attributes_content (b.now ∷ []) }
{
    if a.0 != b.0 {
        return false;
    }
    if a.1.1 == b.1.1 {
        same_type(&a.1.0, &b.1.0)
    } else {
        false
    }
}

/// Whether the attributes say the same: the same names in order, each with the same required mark and type.
#[cycle(same_type)]
pub fn same_attributes(a: &[(Text, (Type, bool))], b: &[(Text, (Type, bool))]) -> bool
    ensures { result ≡ true ↔ attributes_content a.now ≡ attributes_content b.now }
{
    if a.len() != b.len() {
        return false;
    }
    for at in 0..a.len() {
        if !same_attribute(&a[at], &b[at]) {
            return false;
        }
    }
    true
}
