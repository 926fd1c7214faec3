//! Each law is what its function ensures; the functions do nothing.
ghost use Rattle.std.specs.Prelude.{◌≡◌, ◌≢◌, ℕ, List};
ghost use Rattle.serde_json.specs.Data.{Data};
ghost use Rattle.schema_compat_types.specs.declared.fragment.SchemaFragment.{SchemaFragment};
ghost use Rattle.schema_json_shapes.specs.declared.shape_fault.ShapeFault.{ShapeFault as Fault};
ghost use Rattle.schema_compat_shapes.specs.OldParts.{IsOldFragment, IsOldRead, IsFirstOldFault};
ghost use Rattle.cedar_identifiers.specs.declared.raw_name.RawName.{RawName as Raw};
ghost use Rattle.schema_json.specs.declared.fragment.Fragment.{Fragment};
ghost use Rattle.schema_json_errors.specs.declared.json_error.JsonDeserializationError.{
  JsonDeserializationError as
      Error,
};
ghost use Rattle.schema_json_errors.specs.declared.json_fault.JsonFault.TheVariants.{Memory};
ghost use Rattle.schema_compat.specs.Causes.{OldText, IsOldTextError};

use cedar_identifiers::{NameText, RawName};

/// A JSON value says one fragment at most in the deprecated form, or it has one fault of reading.
pub fn one_reading_or_fault()
    ensures fragment { (d : Data) (f g : SchemaFragment) → IsOldFragment d f → IsOldFragment d g → f ≡ g }
    ensures fault { (d : Data) (e other : Fault) → IsFirstOldFault d e → IsFirstOldFault d other → e ≡ other }
    ensures never_both { (d : Data) (f : SchemaFragment) (e : Fault) → IsOldRead d f → ¬ IsFirstOldFault d e }
{}

/// A JSON text says one fragment at most in the deprecated form, or it is refused for one cause, besides out of memory,
/// which may come at any text.
pub fn one_old_fragment_or_error()
    ensures fragment { (text : List ℕ) (f g : Fragment Raw ⟦<RawName as NameText>⟧) → OldText text f → OldText text g
        → f ≡ g }
    ensures error { (text : List ℕ) (e other : Error) → e.fault ≢ Memory → other.fault ≢ Memory
        → IsOldTextError text e → IsOldTextError text other → e ≡ other }
    ensures never_both { (text : List ℕ) (f : Fragment Raw ⟦<RawName as NameText>⟧) (e : Error) → OldText text f
        → e.fault ≢ Memory → ¬ IsOldTextError text e }
{}
