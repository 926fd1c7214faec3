ghost use Rattle.std.specs.Prelude.{◌≡◌, IfOk};

use cedar_data::{Boxed, CloneIn, Map, NonEmpty, Text};
use cedar_identifiers::{Name, UnreservedId};
use std::alloc::{AllocError, Global};

/// A type of a built schema.
#[cycle(types)]
#[derive(Drop)]
pub enum Type {
    /// It has no value.
    Never,
    /// Both truth values.
    AnyBool,
    /// The truth value `true` alone.
    True,
    /// The truth value `false` alone.
    False,
    Long,
    String,
    /// The sets of a type, or of one that is not known.
    Set {
        element: Option<Boxed<Type>>,
    },
    /// The records with these attributes, each with its type and its required mark, and with others where more is true.
    Record {
        attrs: Map<Text, (Type, bool)>,
        more: bool,
    },
    /// The entities of one of these types.
    Entity {
        names: Boxed<NonEmpty<Name>>,
    },
    /// The entities of all types.
    AnyEntity,
    /// The values of an extension type.
    Extension {
        name: UnreservedId,
    },
}

impl CloneIn for Type {
    #[cycle(clone_in)]
    fn clone_in(&self, alloc: Global) -> Result<Self, AllocError> {
        match self {
            Type::Never => Ok(Type::Never),
            Type::AnyBool => Ok(Type::AnyBool),
            Type::True => Ok(Type::True),
            Type::False => Ok(Type::False),
            Type::Long => Ok(Type::Long),
            Type::String => Ok(Type::String),
            Type::Set { element } => match element {
                Some(element) => {
                    let element = Boxed::new(alloc, element.get().clone_in(alloc)?)?;
                    Ok(Type::Set {
                        element: Some(element),
                    })
                }
                None => Ok(Type::Set { element: None }),
            },
            Type::Record { attrs, more } => {
                let entries = clone_entries(alloc, attrs.as_slice())?;
                Ok(Type::Record {
                    attrs: Map::from_sorted_vec(entries),
                    more: *more,
                })
            }
            Type::Entity { names } => Ok(Type::Entity {
                names: names.clone_in(alloc)?,
            }),
            Type::AnyEntity => Ok(Type::AnyEntity),
            Type::Extension { name } => Ok(Type::Extension {
                name: name.clone_in(alloc)?,
            }),
        }
    }
}

// Copies of the attributes, in order.
#[cycle(clone_in)]
pub(crate) fn clone_entries(
    alloc: Global,
    entries: &[(Text, (Type, bool))],
) -> Result<Vec<(Text, (Type, bool))>, AllocError>
    ensures { IfOk result (λ copy. copy.items ≡ entries.now) }
{
    let mut copy = Vec::with_capacity(alloc, entries.len())?;
    for (name, (ty, required)) in entries {
        let name = name.clone_in(alloc)?;
        let ty = ty.clone_in(alloc)?;
        copy.push((name, (ty, *required)))?;
    }
    Ok(copy)
}
