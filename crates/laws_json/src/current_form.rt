//! Each law is what its function ensures; the functions do nothing.
ghost use Rattle.std.specs.Prelude.{◌≡◌, ◌≢◌, ◌≤◌, false, List, [], ◌∷◌, ℕ};
ghost use Rattle.serde_json.specs.Data.{Data, depth};
ghost use Rattle.serde_json.specs.Read.{max_depth};
ghost use Rattle.serde_json.specs.Written.{compact_text, has_float};
ghost use Rattle.cedar_identifiers.specs.Names.{components_of, name_text};
ghost use Rattle.cedar_identifiers.specs.NameReading.{ReadsAs};
ghost use Rattle.cedar_identifiers.specs.declared.any_id.AnyId.{AnyId};
ghost use Rattle.cedar_identifiers.specs.declared.internal_name.InternalName.{InternalName};
ghost use Rattle.cedar_identifiers.specs.declared.name.Name.{Name};
ghost use Rattle.cedar_identifiers.specs.declared.name_kind.NameKind.TheVariants as kind;
ghost use Rattle.cedar_identifiers.specs.declared.raw_name.RawName.{RawName as Raw};
ghost use Rattle.cedar_identifiers.specs.declared.unreserved_id.UnreservedId.{UnreservedId};
ghost use Rattle.schema_json.specs.declared.fragment.Fragment.{Fragment};
ghost use Rattle.schema_json_errors.specs.declared.json_error.JsonDeserializationError.{
  JsonDeserializationError as
      Error,
};
ghost use Rattle.schema_json_errors.specs.declared.json_fault.JsonFault.TheVariants.{Memory};
ghost use Rattle.schema_json_io.specs.Causes.{IsJsonTextError};
ghost use Rattle.schema_json_io.specs.Texts.{Holds, TextShape};
ghost use Rattle.schema_json_shapes.specs.Shapes.{IsFragment, JsonShape, IsShapeFault};
ghost use Rattle.schema_json_shapes.specs.declared.shape_fault.ShapeFault.{ShapeFault as Fault};
ghost use Rattle.schema_json_values.specs.FragmentValues.{json_value};

use cedar_identifiers::{NameText, RawName};

/// A JSON value says one fragment at most, or it has one fault.
pub fn one_fragment_or_fault()
    ensures fragment { (d : Data) (f g : Fragment Raw ⟦<RawName as NameText>⟧) → IsFragment d f → IsFragment d g
        → f ≡ g }
    ensures fault { (d : Data) (e other : Fault) → IsShapeFault d e → IsShapeFault d other → e ≡ other }
    ensures never_both { (d : Data) (f : Fragment Raw ⟦<RawName as NameText>⟧) (e : Fault) → JsonShape d f
        → ¬ IsShapeFault d e }
{}

/// A JSON text says one fragment at most, or it is refused for one cause, besides out of memory, which may come at
/// any text.
pub fn one_fragment_or_error()
    ensures fragment { (text : List ℕ) (f g : Fragment Raw ⟦<RawName as NameText>⟧) → TextShape text f
        → TextShape text g → f ≡ g }
    ensures error { (text : List ℕ) (e other : Error) → e.fault ≢ Memory → other.fault ≢ Memory
        → IsJsonTextError text e → IsJsonTextError text other → e ≡ other }
    ensures never_both { (text : List ℕ) (f : Fragment Raw ⟦<RawName as NameText>⟧) (e : Error) → TextShape text f
        → e.fault ≢ Memory → ¬ IsJsonTextError text e }
{}

/// The JSON value of a fragment has no float, so it has one compact text.
pub fn values_have_no_float<N: NameText>()
    ensures { (f : Fragment N ⟦<N as NameText>⟧) → has_float (json_value N.components f) ≡ false }
{}

/// The compact text of the JSON value of a fragment holds this value, where it is nested no deeper than JSON that is
/// read may be.
pub fn compact_texts_hold_their_values<N: NameText>()
    ensures { (f : Fragment N ⟦<N as NameText>⟧) → depth (json_value N.components f) ≤ max_depth
        → Holds (compact_text (json_value N.components f)) (json_value N.components f) }
{}

/// Names and words are read from their texts.
pub fn names_are_read_from_their_texts()
    ensures names { (n : InternalName)
        → ReadsAs kind.InternalName (name_text (components_of n)) (components_of n) }
    ensures declared { (n : Name) → ReadsAs kind.Name (name_text (components_of n.name)) (components_of n.name) }
    ensures words { (id : UnreservedId) → ReadsAs kind.UnreservedId id.id.text (id.id.text ∷ []) }
    ensures keys { (key : AnyId) → ReadsAs kind.AnyId key.text (key.text ∷ []) }
{}
