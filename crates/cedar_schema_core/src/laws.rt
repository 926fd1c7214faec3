//! Laws of what a text means and of what the program is to do. Each law is what its function ensures; the functions do
//! nothing but cite laws below them.
ghost use Rattle.std.specs.Prelude.{◌≡◌, ◌≢◌, ◌↔◌, ◌≤◌, ℕ, Bool, List, length, IsUtf8};
ghost use Rattle.std.specs.Str.{encode_utf8_all};
ghost use Rattle.cedar_identifiers.specs.declared.raw_name.RawName.{RawName as Raw};
ghost use Rattle.cedar_names.specs.CanonicalText.{schema_text, canonical_text};
ghost use Rattle.cedar_names.specs.Meaning.{SchemaMeaning};
ghost use Rattle.cedar_names.specs.declared.extension_table.ExtensionTable.{ExtensionTable};
ghost use Rattle.schema_json.specs.declared.fragment.Fragment.{Fragment};
ghost use Rattle.schema_json.specs.AsWritten.{as_written};
ghost use Rattle.schema_generate.specs.Generated.{max_size, generated};
ghost use Rattle.schema_convert_errors.specs.declared.error_list.CedarSchemaParseErrors.{CedarSchemaParseErrors};
ghost use Rattle.schema_convert_errors.specs.declared.warnings.SchemaWarning.{SchemaWarning};
ghost use Rattle.schema_convert.specs.Translated.{IsTranslationOfText};
ghost use Rattle.cedar_schema_core.specs.Json.{JsonMeaning, IsValidJson, IsRecoveredJson, IsRefusalOfJson};
ghost use Rattle.cedar_io.specs.Input.{max_input};
ghost use Rattle.cedar_schema_core.specs.Commands.{Asks};
ghost use Rattle.cedar_schema_core.specs.Meanings.{TextMeaning, IsValid, Warns};
ghost use Rattle.schema_build.specs.Texts.{IsParseRefusal};
ghost use Rattle.laws_build.specs.Closure.Closed.{IsClosed};
ghost use Rattle.laws_build.specs.Closure.HalfFilled.{IsHalfFilled};
ghost use Rattle.cedar_schema_core.specs.Recovery.{IsRecovered, IsRefusal};
ghost use Rattle.cedar_schema_core.specs.declared.recover.Recovered.{Recovered};
ghost use Rattle.cedar_runs.specs.Reports.{Report};
ghost use Rattle.cedar_schema_core.specs.Plan.{IsPlan, done_report};
ghost use Rattle.cedar_schema_core_faults.specs.Told.{fault_text};

use crate::command::Command;
use crate::json_texts::JsonForm;
use cedar_schema_core_faults::RecoverError;
use laws_build::closed_meanings::{
    meanings_of_json_are_closed, meanings_of_old_json_are_closed, meanings_of_texts_are_closed,
};
use laws_build::generated_texts::{
    generated_texts_are_translated, what_is_generated_means_something,
};
use laws_build::said_meanings::what_says_a_closed_meaning_means_it;
use laws_syntax::trees::{one_error, one_tree};
use laws_translate::laws::texts_of_meanings_are_translated;
use schema_build::{one_build_fault, one_fragment_meaning};
use schema_syntax::laws::tree_or_error;
use schema_syntax_parser::syntax_is_sentence;

/// Under a table a text is translated to at most one fragment, with one list of warnings.
pub fn one_translation()
    ensures { (text : List ℕ) (table : ExtensionTable) (f g : Fragment Raw as_written) (v w : List SchemaWarning)
        → IsTranslationOfText text table f v → IsTranslationOfText text table g w → (f ≡ g) × (v ≡ w) }
{
    one_tree();
}

/// A text that is refused by the parser or by the translation is not translated.
pub fn refused_or_translated()
    ensures { (text : List ℕ) (table : ExtensionTable) (e : CedarSchemaParseErrors) (f : Fragment Raw as_written)
        (w : List SchemaWarning)
        → IsParseRefusal text e → IsTranslationOfText text table f w → ⊥ }
{
    one_tree();
    tree_or_error();
}

/// A text has at most one meaning under a table.
pub fn one_text_meaning()
    ensures { (text : List ℕ) (table : ExtensionTable) (m n : SchemaMeaning) → TextMeaning text table m
        → TextMeaning text table n → m ≡ n }
{
    one_translation();
    one_fragment_meaning();
}

/// A text that is refused is not valid. Being out of memory is no refusal.
pub fn refused_or_valid()
    ensures { (text : List ℕ) (table : ExtensionTable) (e : RecoverError) → IsRefusal text table e
        → e ≢ RecoverError.Memory → IsValid text table → ⊥ }
{
    one_translation();
    refused_or_translated();
    one_fragment_meaning();
}

/// A text in UTF-8 is refused for one reason, at one place: all reports of its refusals are the same. Being out of
/// memory is no refusal.
pub fn one_refusal()
    ensures { (text : List ℕ) (table : ExtensionTable) (e other : RecoverError) → IsUtf8 text → e ≢ RecoverError.Memory
        → other ≢ RecoverError.Memory → IsRefusal text table e → IsRefusal text table other
        → fault_text text e ≡ fault_text text other }
{
    one_tree();
    tree_or_error();
    one_error();
    one_translation();
    refused_or_translated();
    one_fragment_meaning();
    one_build_fault();
}

/// A JSON text in either form has at most one meaning under a table, all reports of its refusals are the same, and a
/// text that is refused is not valid. Being out of memory is no refusal.
pub fn one_json_reading()
    ensures meaning { (form : JsonForm) (text : List ℕ) (table : ExtensionTable) (m n : SchemaMeaning)
        → JsonMeaning form text table m → JsonMeaning form text table n → m ≡ n }
    ensures refusal { (form : JsonForm) (text : List ℕ) (table : ExtensionTable) (e other : RecoverError)
        → e ≢ RecoverError.Memory → other ≢ RecoverError.Memory → IsRefusalOfJson form text table e
        → IsRefusalOfJson form text table other → fault_text text e ≡ fault_text text other }
    ensures invalid { (form : JsonForm) (text : List ℕ) (table : ExtensionTable) (e : RecoverError)
        → IsRefusalOfJson form text table e → e ≢ RecoverError.Memory → IsValidJson form text table → ⊥ }
{
    one_fragment_meaning();
    one_build_fault();
}

/// An input that is a text, is not too long and means something has a plan, and whatever means something has its
/// warnings: planned are the canonical text of the meaning and a line for each warning.
pub fn valid_texts_are_planned()
    ensures planned { (words : List (List ℕ)) (bytes : List ℕ) (table : ExtensionTable) (m : SchemaMeaning)
        (warnings : List SchemaWarning) → Asks words (Command.Recover table) → IsUtf8 bytes
        → length bytes ≤ max_input → TextMeaning bytes table m → Warns bytes table warnings
        → IsPlan words bytes (done_report (canonical_text m) warnings) }
    ensures warned { (bytes : List ℕ) (table : ExtensionTable) (m : SchemaMeaning) → TextMeaning bytes table m
        → (warnings : List SchemaWarning) × Warns bytes table warnings }
{}

/// For the same words and the same input there is one report at most.
pub fn one_plan()
    ensures { (words : List (List ℕ)) (bytes : List ℕ) (report other : Report) → IsPlan words bytes report
        → IsPlan words bytes other → report ≡ other }
{
    one_text_meaning();
    one_translation();
    refused_or_translated();
    refused_or_valid();
    one_refusal();
    one_json_reading();
}

/// The text of a closed meaning, in either layout, means it.
pub fn texts_of_closed_meanings_mean_them()
    ensures { (closing : Bool) (table : ExtensionTable) (m : SchemaMeaning) → IsClosed table m
        → TextMeaning (schema_text closing m) table m }
{
    texts_of_meanings_are_translated();
    syntax_is_sentence();
    what_says_a_closed_meaning_means_it();
}

/// The text of what a text means, in either layout, means the same.
pub fn canonical_texts_mean_the_same()
    ensures { (closing : Bool) (text : List ℕ) (table : ExtensionTable) (m : SchemaMeaning)
        → TextMeaning text table m → TextMeaning (schema_text closing m) table m }
{
    meanings_of_texts_are_closed();
    texts_of_closed_meanings_mean_them();
}

/// The text of what a JSON text means in its form, in either layout, means the same exactly where that is not half
/// filled.
pub fn texts_of_json_mean_the_same()
    ensures { (closing : Bool) (form : JsonForm) (text : List ℕ) (table : ExtensionTable) (m : SchemaMeaning)
        → JsonMeaning form text table m → TextMeaning (schema_text closing m) table m ↔ (¬ IsHalfFilled m) }
{
    meanings_of_json_are_closed();
    meanings_of_old_json_are_closed();
    meanings_of_texts_are_closed();
    texts_of_closed_meanings_mean_them();
}

/// Two valid texts have one canonical text exactly where they mean the same.
pub fn canonical_texts_tell_meanings_apart()
    ensures { (text other : List ℕ) (table : ExtensionTable) (m n : SchemaMeaning) → TextMeaning text table m
        → TextMeaning other table n → canonical_text m ≡ canonical_text n ↔ m ≡ n }
{
    canonical_texts_mean_the_same();
    one_text_meaning();
}

/// What is recovered of a recovered text, under the same table, is that text, with as many entity types and actions;
/// and a recovered text is valid.
pub fn recovered_texts_recover_themselves()
    ensures text { (text : List ℕ) (table : ExtensionTable) (first second : Recovered) → IsRecovered text table first
        → IsRecovered (encode_utf8_all first.text) table second → second.text ≡ first.text }
    ensures entity_types { (text : List ℕ) (table : ExtensionTable) (first second : Recovered)
        → IsRecovered text table first → IsRecovered (encode_utf8_all first.text) table second
        → second.entity_types ≡ first.entity_types }
    ensures actions { (text : List ℕ) (table : ExtensionTable) (first second : Recovered)
        → IsRecovered text table first → IsRecovered (encode_utf8_all first.text) table second
        → second.actions ≡ first.actions }
    ensures valid { (text : List ℕ) (table : ExtensionTable) (first : Recovered) → IsRecovered text table first
        → IsValid (encode_utf8_all first.text) table }
{
    canonical_texts_mean_the_same();
    one_text_meaning();
}

/// What is recovered of a text that was recovered from JSON is that text, with as many entity types and actions, where
/// the meaning of the JSON is not half filled; and then the recovered text has that meaning.
pub fn recovered_json_recovers_itself()
    ensures text { (form : JsonForm) (text : List ℕ) (table : ExtensionTable)
        (first second : Recovered) (is : IsRecoveredJson form text table first) → ¬ IsHalfFilled is.meaning
        → IsRecovered (encode_utf8_all first.text) table second → second.text ≡ first.text }
    ensures entity_types { (form : JsonForm) (text : List ℕ) (table : ExtensionTable)
        (first second : Recovered) (is : IsRecoveredJson form text table first) → ¬ IsHalfFilled is.meaning
        → IsRecovered (encode_utf8_all first.text) table second → second.entity_types ≡ first.entity_types }
    ensures actions { (form : JsonForm) (text : List ℕ) (table : ExtensionTable)
        (first second : Recovered) (is : IsRecoveredJson form text table first) → ¬ IsHalfFilled is.meaning
        → IsRecovered (encode_utf8_all first.text) table second → second.actions ≡ first.actions }
    ensures means { (form : JsonForm) (text : List ℕ) (table : ExtensionTable) (first : Recovered)
        (is : IsRecoveredJson form text table first) → ¬ IsHalfFilled is.meaning
        → TextMeaning (encode_utf8_all first.text) table is.meaning }
{
    texts_of_json_mean_the_same();
    one_text_meaning();
}

/// A generated text of a size from 1 to 4,096 is valid, under every table.
pub fn generated_texts_are_valid()
    ensures { (n : ℕ) (table : ExtensionTable) → 1 ≤ n → n ≤ max_size → IsValid (generated n) table }
{
    generated_texts_are_translated();
    what_is_generated_means_something();
    syntax_is_sentence();
}
