//! What is proved of what a text means, and of what the program does with it.
ghost use Rattle.std.specs.Prelude.{◌≡◌, ◌≢◌, ◌↔◌, ◌≤◌, ◌⊎◌, ℕ, Bool, List, Some, IsUtf8, length, map};
ghost use Rattle.std.specs.String.{string_bytes};
ghost use Rattle.std.specs.Str.{encode_utf8_all};
ghost use Rattle.cedar_io.specs.Input.{max_input};
ghost use Rattle.cedar_names.specs.CanonicalText.{schema_text, canonical_text};
ghost use Rattle.cedar_names.specs.Meaning.{SchemaMeaning};
ghost use Rattle.cedar_names.specs.declared.extension_table.ExtensionTable.{ExtensionTable};
ghost use Rattle.schema_generate.specs.Generated.{max_size, generated};
ghost use Rattle.laws_build.specs.Closure.HalfFilled.{IsHalfFilled};
ghost use Rattle.cedar_schema_core.specs.Json.{JsonMeaning};
ghost use Rattle.schema_convert_errors.specs.declared.warnings.SchemaWarning.{SchemaWarning};
ghost use Rattle.cedar_schema_core.specs.Commands.{Asks};
ghost use Rattle.cedar_schema_core.specs.Headline.{InputMeans, WroteMeaning, WroteNothing};
ghost use Rattle.cedar_schema_core.specs.Meanings.{TextMeaning, IsValid, Warns};
ghost use Rattle.cedar_schema_core.specs.Recovery.{IsRecovered, IsRefusal};
ghost use Rattle.cedar_schema_core.specs.declared.recover.Recovered.{Recovered};
ghost use Rattle.cedar_runs.specs.Reports.{Report};
ghost use Rattle.cedar_schema_core.specs.Plan.{IsPlan, done_report};
ghost use Rattle.cedar_runs.specs.Runs.{device, NoneCounted};
ghost use Rattle.cedar_schema_core_faults.specs.Told.{fault_text};

use cedar_io::{Sink, Source};
use cedar_schema_core::{
    Command, JsonForm, RecoverError, Status, canonical_texts_mean_the_same,
    canonical_texts_tell_meanings_apart, generated_texts_are_valid, one_plan, one_refusal,
    one_text_meaning, recovered_texts_recover_themselves, refused_or_valid, run_tool,
    texts_of_json_mean_the_same, valid_texts_are_planned,
};
use std::alloc::Global;

/// Runs the program, and says of a recovery in which no device failed, where the source and the output tell what they
/// hold: memory was out and nothing was written; or the run is done exactly where the input is valid, and then the
/// output took the canonical text of what the input means, which means the same.
pub fn a_recovery_writes_what_its_input_means<S: Source, O: Sink, E: Sink>(
    alloc: Global,
    words: &[String],
    source: &mut S,
    out: &mut O,
    err: &mut E,
) -> Status
    ensures { let source_device = device S.left S.faults source.old source.new in
        let out_device = device O.taken O.faults out.old out.new in
        let err_device = device E.taken E.faults err.old err.new in
        (table : ExtensionTable) (bytes taken : List ℕ) → Asks (map string_bytes words.now) (Command.Recover table)
        → S.left source.old ≡ Some bytes → O.taken out.old ≡ Some taken
        → NoneCounted source_device out_device err_device
        → WroteNothing out_device err_device result
        ⊎ (((m : SchemaMeaning) → InputMeans bytes table m ↔ WroteMeaning table m out_device result)
        × (result ≡ Status.Done → (m : SchemaMeaning) × InputMeans bytes table m)) }
{
    run_tool(alloc, words, source, out, err)
}

/// An input in UTF-8 that is no longer than an input may be and means something is planned to be answered by its
/// canonical text, with a line for each warning.
pub fn a_valid_text_is_planned()
    ensures { (words : List (List ℕ)) (bytes : List ℕ) (table : ExtensionTable) (m : SchemaMeaning)
        (warnings : List SchemaWarning) → Asks words (Command.Recover table) → IsUtf8 bytes
        → length bytes ≤ max_input → TextMeaning bytes table m → Warns bytes table warnings
        → IsPlan words bytes (done_report (canonical_text m) warnings) }
{
    valid_texts_are_planned();
}

/// A text has at most one meaning under a table.
pub fn a_text_has_one_meaning()
    ensures { (text : List ℕ) (table : ExtensionTable) (m n : SchemaMeaning) → TextMeaning text table m
        → TextMeaning text table n → m ≡ n }
{
    one_text_meaning();
}

/// What is recovered means the same: the text of what a valid text means, with a comma behind every member or between
/// members, is valid under the same table, and means the same.
pub fn what_is_recovered_means_the_same()
    ensures { (closing : Bool) (text : List ℕ) (table : ExtensionTable) (m : SchemaMeaning) → TextMeaning text table m
        → TextMeaning (schema_text closing m) table m }
{
    canonical_texts_mean_the_same();
}

/// What is recovered from JSON means the same: the text of what a JSON text means in its form, the one of today or the
/// deprecated one, is valid under the same table, and means the same, exactly where no action has principals alone,
/// resources alone or a context alone.
pub fn what_is_recovered_from_json_means_the_same()
    ensures { (closing : Bool) (form : JsonForm) (text : List ℕ) (table : ExtensionTable) (m : SchemaMeaning)
        → JsonMeaning form text table m → TextMeaning (schema_text closing m) table m ↔ (¬ IsHalfFilled m) }
{
    texts_of_json_mean_the_same();
}

/// Two texts that are valid under a table have one canonical text exactly where they mean the same.
pub fn canonical_texts_stand_for_meanings()
    ensures { (text other : List ℕ) (table : ExtensionTable) (m n : SchemaMeaning) → TextMeaning text table m
        → TextMeaning other table n → canonical_text m ≡ canonical_text n ↔ m ≡ n }
{
    canonical_texts_tell_meanings_apart();
}

/// Recovering what was recovered from a text changes nothing, under the same table.
pub fn recovering_again_changes_nothing()
    ensures { (text : List ℕ) (table : ExtensionTable) (first second : Recovered) → IsRecovered text table first
        → IsRecovered (encode_utf8_all first.text) table second → second.text ≡ first.text }
{
    recovered_texts_recover_themselves();
}

/// Under a table no text is both refused and valid. Being out of memory is no refusal.
pub fn refused_is_not_valid()
    ensures { (text : List ℕ) (table : ExtensionTable) (e : RecoverError) → IsRefusal text table e
        → e ≢ RecoverError.Memory → IsValid text table → ⊥ }
{
    refused_or_valid();
}

/// A text in UTF-8 is refused for one reason, at one place: all reports of its refusals under a table are the same.
/// Being out of memory is no refusal.
pub fn a_text_has_one_refusal()
    ensures { (text : List ℕ) (table : ExtensionTable) (e other : RecoverError) → IsUtf8 text
        → e ≢ RecoverError.Memory → other ≢ RecoverError.Memory → IsRefusal text table e → IsRefusal text table other
        → fault_text text e ≡ fault_text text other }
{
    one_refusal();
}

/// For the same words and the same input there is one report at most: one status, one output and one error output.
pub fn a_run_has_one_plan()
    ensures { (words : List (List ℕ)) (bytes : List ℕ) (report other : Report) → IsPlan words bytes report
        → IsPlan words bytes other → report ≡ other }
{
    one_plan();
}

/// A text that the program makes is valid, for every size from 1 to 4,096 and under every table.
pub fn a_made_text_is_valid()
    ensures { (size : ℕ) (table : ExtensionTable) → 1 ≤ size → size ≤ max_size → IsValid (generated size) table }
{
    generated_texts_are_valid();
}
