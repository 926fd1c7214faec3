use cedar_data::{NonEmpty, Text};
use cedar_identifiers::{NameFault, UnreservedId};
use std::alloc::{AllocError, AllocFailed};

/// Why a JSON value is no fragment.
#[derive(Drop)]
pub enum ShapeFault {
    /// An object has this field, which it may not have.
    UnknownField(Text),
    /// An object lacks this field.
    MissingField(Text),
    /// The value of this field is of another kind.
    WrongType(Text),
    /// A text is no name of its role.
    BadName {
        role: Text,
        text: Text,
        fault: NameFault,
    },
    /// A common type has the name of a type or of a kind of types.
    ReservedCommonType(UnreservedId),
    /// An enumerated entity type has no choices.
    EmptyEnum,
    /// These fields stand beside `external`.
    ExternalConflict(NonEmpty<Text>),
    /// These fields stand beside `enum`.
    EnumConflict(NonEmpty<Text>),
    /// The empty namespace has annotations.
    AnnotationsOnEmptyNamespace,
    /// Out of memory.
    Memory,
}

impl From<AllocError> for ShapeFault {
    ghost use Rattle.schema_json_shapes.specs.declared.shape_fault.ShapeFault.TheVariants.{Memory};
    ghost use Rattle.std.specs.Prelude.{◌≡◌};

    ghost from_gives = { λ _ e. e ≡ Memory };

    fn from(_refused: AllocError) -> ShapeFault {
        ShapeFault::Memory
    }
}

impl<T: Drop> From<AllocFailed<T>> for ShapeFault {
    ghost use Rattle.schema_json_shapes.specs.declared.shape_fault.ShapeFault.TheVariants.{Memory};
    ghost use Rattle.std.specs.Prelude.{◌≡◌};

    ghost from_gives = { λ _ e. e ≡ Memory };

    fn from(_refused: AllocFailed<T>) -> ShapeFault {
        ShapeFault::Memory
    }
}
