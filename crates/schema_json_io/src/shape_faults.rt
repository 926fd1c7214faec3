ghost use Rattle.std.specs.Prelude.{◌≡◌};
ghost use Rattle.schema_json_io.specs.Faults.{of_shape};

use schema_json_errors::JsonFault;
use schema_json_shapes::ShapeFault;

/// The fault of a value, as a fault of reading JSON.
pub fn of_shape(fault: ShapeFault) -> JsonFault
    ensures { result ≡ of_shape fault }
{
    match fault {
        ShapeFault::UnknownField(name) => JsonFault::UnknownField(name),
        ShapeFault::MissingField(name) => JsonFault::MissingField(name),
        ShapeFault::WrongType(name) => JsonFault::WrongType(name),
        ShapeFault::BadName { role, text, fault } => JsonFault::BadName { role, text, fault },
        ShapeFault::ReservedCommonType(id) => JsonFault::ReservedCommonType(id),
        ShapeFault::EmptyEnum => JsonFault::EmptyEnum,
        ShapeFault::ExternalConflict(fields) => JsonFault::ExternalConflict(fields),
        ShapeFault::EnumConflict(fields) => JsonFault::EnumConflict(fields),
        ShapeFault::AnnotationsOnEmptyNamespace => JsonFault::AnnotationsOnEmptyNamespace,
        ShapeFault::Memory => JsonFault::Memory,
    }
}
