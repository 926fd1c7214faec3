//! Laws of meanings of fragments without a build fault. Each law is what its function ensures.
ghost use Rattle.std.specs.Prelude.{◌≡◌, ◌≢◌, ℕ, List, IsUtf8};
ghost use Rattle.cedar_identifiers.specs.declared.raw_name.RawName.{RawName};
ghost use Rattle.cedar_names.specs.Meaning.{SchemaMeaning};
ghost use Rattle.cedar_names.specs.declared.extension_table.ExtensionTable.{ExtensionTable};
ghost use Rattle.schema_json.specs.declared.fragment.Fragment.{Fragment};
ghost use Rattle.schema_json.specs.AsWritten.{as_written};
ghost use Rattle.schema_build_checks.specs.Rows.{Never};
ghost use Rattle.schema_build_parts.specs.BuildFaults.{BuildFault};
ghost use Rattle.schema_build.specs.FaultsTold.{IsInOrder};
ghost use Rattle.schema_build.specs.Meaning.{FragmentMeaning};
ghost use Rattle.schema_build.specs.TextErrorTexts.{text_error_text};
ghost use Rattle.schema_build.specs.Texts.{IsTextError};
ghost use Rattle.schema_build.specs.declared.text_errors.CedarSchemaError.{CedarSchemaError};
ghost use Rattle.schema_convert.specs.Translated.{IsTranslationOfText};
ghost use Rattle.schema_convert_errors.specs.declared.warnings.SchemaWarning.{SchemaWarning};
ghost use Rattle.laws_build.specs.Closure.WellFormed.{IsWellFormed};
ghost use Rattle.schema_inclusion_values.specs.Settled.{IsSettled};
ghost use Rattle.laws_inclusion.specs.TextMeans.{TextMeans};
ghost use Rattle.laws_inclusion.specs.Inhabited.{HasValues};

use laws_build::closed_meanings::fragments_of_texts_are_well_formed;
use laws_build::rearranged_texts::rearranged_texts_declare_the_same;
use laws_syntax::trees::{one_error, one_tree};
use laws_translate::laws::{faults_depend_on_what_is_said, fragments_say_what_trees_say};
use laws_written::laws::trees_are_spelled;
use schema_build::{CedarSchemaError, one_build_fault, one_fragment_meaning};
use schema_inclusion_values::laws::types_of_meanings_have_values;
use schema_syntax::tree_or_error;

/// What a well-formed fragment without a build fault means is settled.
pub fn faultless_meanings_are_settled()
    ensures { (f : Fragment RawName as_written) (table : ExtensionTable) (m : SchemaMeaning) → IsWellFormed f
        → FragmentMeaning f table m → Never (BuildFault f table) → IsSettled m }
{}

/// What a text means is settled, whether or not a name in it is captured.
pub fn meanings_of_texts_are_settled()
    ensures { (text : List ℕ) (table : ExtensionTable) (m : SchemaMeaning) → TextMeans text table m → IsSettled m }
{
    fragments_of_texts_are_well_formed();
    faultless_meanings_are_settled();
}

/// A text means one thing at most under a table.
pub fn one_meaning_of_a_text()
    ensures { (text : List ℕ) (table : ExtensionTable) (m n : SchemaMeaning) → TextMeans text table m
        → TextMeans text table n → m ≡ n }
{
    one_tree();
    one_fragment_meaning();
}

/// Each type in the meaning of a well-formed fragment without a build fault has a value.
pub fn types_of_fragments_have_values()
    ensures { (f : Fragment RawName as_written) (table : ExtensionTable) (m : SchemaMeaning) → IsWellFormed f
        → FragmentMeaning f table m → Never (BuildFault f table) → HasValues m }
{
    faultless_meanings_are_settled();
    types_of_meanings_have_values();
}

/// The entries of the fragment of a text are in the order of their names.
pub fn fragments_of_texts_are_in_order()
    ensures { (text : List ℕ) (table : ExtensionTable) (f : Fragment RawName as_written) (warnings : List SchemaWarning)
        → IsTranslationOfText text table f warnings → IsInOrder f }
{
    trees_are_spelled();
    fragments_say_what_trees_say();
    faults_depend_on_what_is_said();
    rearranged_texts_declare_the_same();
}

/// All refusals of a text in UTF-8 say the same. Being out of memory is no refusal.
pub fn one_refusal_of_a_text()
    ensures { (text : List ℕ) (table : ExtensionTable) (e other : CedarSchemaError) → IsUtf8 text
        → e ≢ CedarSchemaError.Memory → other ≢ CedarSchemaError.Memory → IsTextError text table e
        → IsTextError text table other → text_error_text e ≡ text_error_text other }
{
    one_tree();
    one_error();
    tree_or_error();
    one_build_fault();
    fragments_of_texts_are_in_order();
}

/// A text that is refused means nothing. Being out of memory is no refusal.
pub fn refused_texts_mean_nothing()
    ensures { (text : List ℕ) (table : ExtensionTable) (e : CedarSchemaError) (m : SchemaMeaning)
        → e ≢ CedarSchemaError.Memory → IsTextError text table e → TextMeans text table m → ⊥ }
{
    one_tree();
    tree_or_error();
}
