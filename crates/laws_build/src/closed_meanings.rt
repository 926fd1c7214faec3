//! Laws of meanings of fragments without a build fault. Each law is what its function ensures.
ghost use Rattle.std.specs.Prelude.{◌↔◌, ℕ, List};
ghost use Rattle.cedar_identifiers.specs.declared.raw_name.RawName.{RawName};
ghost use Rattle.cedar_names.specs.Meaning.{SchemaMeaning};
ghost use Rattle.cedar_names.specs.declared.extension_table.ExtensionTable.{ExtensionTable};
ghost use Rattle.schema_json.specs.declared.fragment.Fragment.{Fragment};
ghost use Rattle.schema_json.specs.AsWritten.{as_written};
ghost use Rattle.schema_json_io.specs.Texts.{TextShape};
ghost use Rattle.schema_compat.specs.Causes.{OldText};
ghost use Rattle.schema_convert_errors.specs.declared.warnings.SchemaWarning.{SchemaWarning};
ghost use Rattle.schema_convert.specs.Translated.{IsTranslationOfText};
ghost use Rattle.laws_written.specs.Written.{WrittenItem};
ghost use Rattle.laws_translate.specs.FragmentsSay.{FragmentSays};
ghost use Rattle.laws_translate.specs.Sayable.{IsSayable};
ghost use Rattle.schema_build_text.specs.Captured.{IsUncaptured};
ghost use Rattle.schema_build_checks.specs.Rows.{Never};
ghost use Rattle.schema_build_parts.specs.BuildFaults.{BuildFault};
ghost use Rattle.schema_build.specs.Meaning.{FragmentMeaning};
ghost use Rattle.laws_build.specs.Closure.Chosen.{AreChosen};
ghost use Rattle.laws_build.specs.Closure.Closed.{IsClosed};
ghost use Rattle.laws_build.specs.Closure.HalfFilled.{IsHalfFilled};
ghost use Rattle.laws_build.specs.Closure.Formed.{IsFormed};
ghost use Rattle.laws_build.specs.Closure.WellFormed.{IsWellFormed};

use laws_translate::laws::{faults_depend_on_what_is_said, fragments_say_what_trees_say};
use laws_written::laws::trees_are_spelled;

/// What a formed fragment without a build fault means is closed exactly where it is not half filled, where nothing in
/// it is captured.
pub fn formed_meanings_are_closed()
    ensures { (f : Fragment RawName as_written) (table : ExtensionTable) (m : SchemaMeaning) → IsFormed f
        → FragmentMeaning f table m → Never (BuildFault f table) → IsUncaptured m
        → IsClosed table m ↔ (¬ IsHalfFilled m) }
{}

/// What a well-formed fragment without a build fault means is closed, where nothing in it is captured.
pub fn meanings_are_closed()
    ensures { (f : Fragment RawName as_written) (table : ExtensionTable) (m : SchemaMeaning) → IsWellFormed f
        → FragmentMeaning f table m → Never (BuildFault f table) → IsUncaptured m → IsClosed table m }
{}

/// A fragment that says what is written is well formed, where that can be translated and each enum has a choice.
pub fn fragments_that_say_are_well_formed()
    ensures { (f : Fragment RawName as_written) (w : List WrittenItem) → FragmentSays f w → IsSayable w → AreChosen w
        → IsWellFormed f }
{}

/// The fragment of a text is well formed.
pub fn fragments_of_texts_are_well_formed()
    ensures { (text : List ℕ) (table : ExtensionTable) (f : Fragment RawName as_written)
        (warnings : List SchemaWarning) → IsTranslationOfText text table f warnings → IsWellFormed f }
{
    trees_are_spelled();
    fragments_say_what_trees_say();
    faults_depend_on_what_is_said();
    fragments_that_say_are_well_formed();
}

/// What the fragment of a text means is closed, where it has no build fault and nothing in it is captured.
pub fn meanings_of_texts_are_closed()
    ensures { (text : List ℕ) (table : ExtensionTable) (f : Fragment RawName as_written)
        (warnings : List SchemaWarning) (m : SchemaMeaning) → IsTranslationOfText text table f warnings
        → FragmentMeaning f table m → Never (BuildFault f table) → IsUncaptured m → IsClosed table m }
{
    fragments_of_texts_are_well_formed();
    meanings_are_closed();
}

/// The fragment that a JSON text says is formed.
pub fn fragments_of_json_are_formed()
    ensures { (text : List ℕ) (f : Fragment RawName as_written) → TextShape text f → IsFormed f }
{}

/// What the fragment of a JSON text means is closed exactly where it is not half filled, where the fragment has no
/// build fault and nothing in its meaning is captured.
pub fn meanings_of_json_are_closed()
    ensures { (text : List ℕ) (table : ExtensionTable) (f : Fragment RawName as_written) (m : SchemaMeaning)
        → TextShape text f → FragmentMeaning f table m → Never (BuildFault f table) → IsUncaptured m
        → IsClosed table m ↔ (¬ IsHalfFilled m) }
{
    fragments_of_json_are_formed();
    formed_meanings_are_closed();
}

/// The fragment that a JSON text says in the deprecated form is formed.
pub fn fragments_of_old_json_are_formed()
    ensures { (text : List ℕ) (f : Fragment RawName as_written) → OldText text f → IsFormed f }
{}

/// What the fragment of a JSON text in the deprecated form means is closed exactly where it is not half filled, where
/// the fragment has no build fault and nothing in its meaning is captured.
pub fn meanings_of_old_json_are_closed()
    ensures { (text : List ℕ) (table : ExtensionTable) (f : Fragment RawName as_written) (m : SchemaMeaning)
        → OldText text f → FragmentMeaning f table m → Never (BuildFault f table) → IsUncaptured m
        → IsClosed table m ↔ (¬ IsHalfFilled m) }
{
    fragments_of_old_json_are_formed();
    formed_meanings_are_closed();
}
