use cedar_data::{CloneIn, NonEmpty, Text};
use cedar_identifiers::{NameFault, UnreservedId};
use std::alloc::{AllocError, AllocFailed, Global};

/// Why a JSON text or value is no fragment.
#[derive(Drop)]
pub enum JsonFault {
    /// The text is no JSON.
    NotJson,
    /// An object has this key twice.
    RepeatedKey(Text),
    /// A number is no whole number of 64 bits.
    Float,
    /// An object has this field, which it may not have.
    UnknownField(Text),
    /// An object lacks this field.
    MissingField(Text),
    /// The value of this field is of another kind.
    WrongType(Text),
    /// A text is no name of its role.
    BadName {
        role: Text,
        text: Text,
        fault: NameFault,
    },
    /// A common type has the name of a type or of a kind of types.
    ReservedCommonType(UnreservedId),
    /// An enumerated entity type has no choices.
    EmptyEnum,
    /// These fields stand beside `external`.
    ExternalConflict(NonEmpty<Text>),
    /// These fields stand beside `enum`.
    EnumConflict(NonEmpty<Text>),
    /// The empty namespace has annotations.
    AnnotationsOnEmptyNamespace,
    /// Out of memory.
    Memory,
}

impl From<AllocError> for JsonFault {
    ghost use Rattle.std.specs.Prelude.{◌≡◌};
    ghost use Rattle.schema_json_errors.specs.declared.json_fault.JsonFault.TheVariants.{Memory};

    ghost from_gives = { λ _ e. e ≡ Memory };

    fn from(_refused: AllocError) -> JsonFault {
        JsonFault::Memory
    }
}

impl<T: Drop> From<AllocFailed<T>> for JsonFault {
    ghost use Rattle.std.specs.Prelude.{◌≡◌};
    ghost use Rattle.schema_json_errors.specs.declared.json_fault.JsonFault.TheVariants.{Memory};

    ghost from_gives = { λ _ e. e ≡ Memory };

    fn from(_refused: AllocFailed<T>) -> JsonFault {
        JsonFault::Memory
    }
}

impl CloneIn for JsonFault {
    fn clone_in(&self, alloc: Global) -> Result<Self, AllocError> {
        match self {
            JsonFault::NotJson => Ok(JsonFault::NotJson),
            JsonFault::RepeatedKey(key) => Ok(JsonFault::RepeatedKey(key.clone_in(alloc)?)),
            JsonFault::Float => Ok(JsonFault::Float),
            JsonFault::UnknownField(name) => Ok(JsonFault::UnknownField(name.clone_in(alloc)?)),
            JsonFault::MissingField(name) => Ok(JsonFault::MissingField(name.clone_in(alloc)?)),
            JsonFault::WrongType(name) => Ok(JsonFault::WrongType(name.clone_in(alloc)?)),
            JsonFault::BadName { role, text, fault } => Ok(JsonFault::BadName {
                role: role.clone_in(alloc)?,
                text: text.clone_in(alloc)?,
                fault: fault.clone_in(alloc)?,
            }),
            JsonFault::ReservedCommonType(id) => Ok(JsonFault::ReservedCommonType(id.clone_in(
                alloc,
            )?)),
            JsonFault::EmptyEnum => Ok(JsonFault::EmptyEnum),
            JsonFault::ExternalConflict(fields) => Ok(JsonFault::ExternalConflict(fields.clone_in(
                alloc,
            )?)),
            JsonFault::EnumConflict(fields) => Ok(JsonFault::EnumConflict(fields.clone_in(alloc)?)),
            JsonFault::AnnotationsOnEmptyNamespace => Ok(JsonFault::AnnotationsOnEmptyNamespace),
            JsonFault::Memory => Ok(JsonFault::Memory),
        }
    }
}
