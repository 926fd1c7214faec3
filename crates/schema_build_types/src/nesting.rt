ghost use Rattle.std.specs.Prelude.{◌≡◌};
ghost use Rattle.schema_build_types.specs.Content.{type_content, attributes_content};
ghost use Rattle.schema_build_types.specs.Nesting.{is_deeper, some_are_deeper};

use crate::types::Type;
use cedar_data::Text;

/// How deep sets and records may be nested in a type of a built schema. Functions that copy, compare and print types
/// call themselves once for each level, so this bounds the stack that they take.
pub const DEEPEST: usize = 4096;

/// Whether sets and records are nested in the type more than `most` deep. It looks no deeper than that.
#[cycle(is_deeper)]
pub fn is_deeper(ty: &Type, most: usize) -> bool
    ensures { result ≡ is_deeper most (type_content ty.now) }
{
    match ty {
        Type::Set { element } => match element {
            Some(element) => most == 0 || is_deeper(element.get(), most - 1),
            None => false,
        },
        Type::Record { attrs, .. } => most == 0 || some_are_deeper(attrs.as_slice(), most - 1),
        Type::Entity { .. } | Type::AnyEntity => false,
        Type::Never | Type::AnyBool | Type::True | Type::False => false,
        Type::Long | Type::String | Type::Extension { .. } => false,
    }
}

// Whether they are in the type of one of the attributes.
#[cycle(is_deeper)]
fn some_are_deeper(entries: &[(Text, (Type, bool))], most: usize) -> bool
    ensures { result ≡ some_are_deeper most (attributes_content entries.now) }
{
    for (_, (ty, _)) in entries {
        if is_deeper(ty, most) {
            return true;
        }
    }
    false
}
