ghost use Rattle.std.specs.Prelude.{◌≡◌};
ghost use Rattle.std.specs.Option.{option_copied};
ghost use Rattle.schema_build_types.specs.Content.{type_content};
ghost use Rattle.schema_build_text.specs.Readings.{plain_type};
ghost use Rattle.schema_inclusion_types.specs.Kinds.{kind_type, element_type, AreKindSorted};

use crate::names::first_name;
use cedar_data::Text;
use cedar_identifiers::{Name, UnreservedId};
use schema_build_types::Type;

/// The outermost layer of a type, lent, as a text can say it.
#[derive(Clone, Copy)]
pub enum Kind<'a> {
    Bool,
    Long,
    Str,
    /// The sets of this type, or of empty records.
    Set(Option<&'a Type>),
    Rec(&'a [(Text, (Type, bool))]),
    Entity(&'a Name),
    Ext(&'a UnreservedId),
}

/// The kind of the type.
pub fn kind_of(ty: &Type) -> Kind<'_>
    ensures says { kind_type result ≡ plain_type (type_content ty.now) }
    ensures sorted { AreKindSorted result }
{
    match ty {
        Type::Never | Type::AnyBool | Type::True | Type::False => Kind::Bool,
        Type::Long => Kind::Long,
        Type::String => Kind::Str,
        Type::Set { element } => match element {
            Some(element) => Kind::Set(Some(element.get())),
            None => Kind::Set(None),
        },
        Type::Record { attrs, .. } => Kind::Rec(attrs.as_slice()),
        Type::Entity { names } => Kind::Entity(first_name(names.get())),
        Type::AnyEntity => Kind::Rec(&[]),
        Type::Extension { name } => Kind::Ext(name),
    }
}

/// The kind of the members of a set.
pub fn element_kind<'a>(element: Option<&'a Type>) -> Kind<'a>
    ensures says { kind_type result ≡ element_type (option_copied element.entry) }
    ensures sorted { AreKindSorted result }
{
    match element {
        Some(element) => kind_of(element),
        None => Kind::Rec(&[]),
    }
}
