// What follows from the definitions.

ghost use Rattle.std.specs.Prelude.{◌≡◌, ◌≢◌, ℕ, List};
ghost use Rattle.cedar_names.specs.declared.extension_table.ExtensionTable.{ExtensionTable};
ghost use Rattle.schema_assist_offers.specs.Offers.{Known};
ghost use Rattle.schema_assist_words.specs.Refusals.{IsAssistRefusal};
ghost use Rattle.schema_assist_words.specs.declared.text_before.AssistError.{AssistError};
ghost use Rattle.schema_assist_words.specs.declared.text_before.AssistError.TheVariants.{Memory};
ghost use Rattle.schema_assist.specs.Assistance.{IsAssistance};
ghost use Rattle.schema_assist.specs.declared.assistance.Assistance.{Assistance};

use schema_assist_words::laws::{front_or_refusal, one_front, one_partial_word};
use schema_syntax::one_syntax_fault;
use schema_syntax_grammar::laws::one_expected;

/// A place has one answer: one partial word, one list of kinds and one list of names.
pub fn one_assistance()
    ensures { (text : List ℕ) (at : ℕ) (known : Known) (table : ExtensionTable) (first second : Assistance)
        → IsAssistance text at known table first → IsAssistance text at known table second
        → (first.partial ≡ second.partial) × (first.expected.items ≡ second.expected.items)
        × (first.names.items ≡ second.names.items) }
{
    one_front();
    one_expected();
}

/// Where there is an answer, nothing is refused but for memory.
pub fn assisted_or_refused()
    ensures { (text : List ℕ) (at : ℕ) (known : Known) (table : ExtensionTable) (a : Assistance)
        (error : AssistError) → IsAssistance text at known table a → IsAssistRefusal text at error → error ≡ Memory }
{
    front_or_refusal();
}

/// A place is refused for one reason, but for memory.
pub fn one_refusal()
    ensures { (text : List ℕ) (at : ℕ) (error other : AssistError) → error ≢ Memory → other ≢ Memory
        → IsAssistRefusal text at error → IsAssistRefusal text at other → error ≡ other }
{
    one_partial_word();
    one_syntax_fault();
}
