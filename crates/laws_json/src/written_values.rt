//! Each law is what its function ensures; the functions do nothing.
ghost use Rattle.std.specs.Prelude.{◌≡◌, ◌≢◌, ◌≤◌, ℕ, List};
ghost use Rattle.serde_json.specs.Data.{depth};
ghost use Rattle.serde_json.specs.Read.{max_depth};
ghost use Rattle.serde_json.specs.Written.{compact_text};
ghost use Rattle.cedar_identifiers.specs.declared.raw_name.RawName.{RawName as Raw};
ghost use Rattle.schema_json.specs.declared.fragment.Fragment.{Fragment};
ghost use Rattle.laws_translate.specs.BareFragments.{bare_fragment};
ghost use Rattle.laws_json.specs.Back.Sayable.{IsSayableFragment};
ghost use Rattle.schema_json_errors.specs.declared.json_error.JsonDeserializationError.{
  JsonDeserializationError as
      Error,
};
ghost use Rattle.schema_json_errors.specs.declared.json_fault.JsonFault.TheVariants.{Memory};
ghost use Rattle.schema_json_io.specs.Causes.{IsJsonTextError, IsValueError};
ghost use Rattle.schema_json_io.specs.Texts.{Holds, TextShape, ValueShape};
ghost use Rattle.schema_json_shapes.specs.Shapes.{JsonShape};
ghost use Rattle.schema_json_values.specs.FragmentValues.{json_value};

use cedar_identifiers::{NameText, RawName};

/// The JSON value of a sayable fragment says it again, places aside.
pub fn sayable_fragments_read_back()
    ensures { (f : Fragment Raw ⟦<RawName as NameText>⟧) → IsSayableFragment f
        → JsonShape (json_value ⟦<RawName as NameText>⟧.components f) (bare_fragment f) }
{}

/// Reading the JSON value of a sayable fragment gives the fragment, places aside, and nothing else; it is refused only
/// when out of memory.
pub fn sayable_values_are_read()
    ensures said { (f : Fragment Raw ⟦<RawName as NameText>⟧) → IsSayableFragment f
        → ValueShape (json_value ⟦<RawName as NameText>⟧.components f) (bare_fragment f) }
    ensures alone { (f g : Fragment Raw ⟦<RawName as NameText>⟧) → IsSayableFragment f
        → ValueShape (json_value ⟦<RawName as NameText>⟧.components f) g → g ≡ bare_fragment f }
    ensures refused { (f : Fragment Raw ⟦<RawName as NameText>⟧) (e : Error) → IsSayableFragment f
        → IsValueError (json_value ⟦<RawName as NameText>⟧.components f) e → e.fault ≡ Memory }
{}

/// Reading a text that holds the JSON value of a sayable fragment gives the fragment, places aside, and nothing else;
/// it is refused only when out of memory.
pub fn sayable_texts_are_read()
    ensures said { (text : List ℕ) (f : Fragment Raw ⟦<RawName as NameText>⟧) → IsSayableFragment f
        → Holds text (json_value ⟦<RawName as NameText>⟧.components f) → TextShape text (bare_fragment f) }
    ensures alone { (text : List ℕ) (f g : Fragment Raw ⟦<RawName as NameText>⟧) → IsSayableFragment f
        → Holds text (json_value ⟦<RawName as NameText>⟧.components f) → TextShape text g → g ≡ bare_fragment f }
    ensures refused { (text : List ℕ) (f : Fragment Raw ⟦<RawName as NameText>⟧) (e : Error) → IsSayableFragment f
        → Holds text (json_value ⟦<RawName as NameText>⟧.components f) → e.fault ≢ Memory → ¬ IsJsonTextError text e }
{}

/// Reading the compact text of the JSON value of a sayable fragment gives the fragment, places aside, and nothing else,
/// where the value is nested no deeper than JSON that is read may be; it is refused only when out of memory.
pub fn written_texts_are_read()
    ensures said { (f : Fragment Raw ⟦<RawName as NameText>⟧) → IsSayableFragment f
        → depth (json_value ⟦<RawName as NameText>⟧.components f) ≤ max_depth
        → TextShape (compact_text (json_value ⟦<RawName as NameText>⟧.components f)) (bare_fragment f) }
    ensures alone { (f g : Fragment Raw ⟦<RawName as NameText>⟧) → IsSayableFragment f
        → depth (json_value ⟦<RawName as NameText>⟧.components f) ≤ max_depth
        → TextShape (compact_text (json_value ⟦<RawName as NameText>⟧.components f)) g → g ≡ bare_fragment f }
    ensures refused { (f : Fragment Raw ⟦<RawName as NameText>⟧) (e : Error) → IsSayableFragment f
        → depth (json_value ⟦<RawName as NameText>⟧.components f) ≤ max_depth → e.fault ≢ Memory
        → ¬ IsJsonTextError (compact_text (json_value ⟦<RawName as NameText>⟧.components f)) e }
{}
