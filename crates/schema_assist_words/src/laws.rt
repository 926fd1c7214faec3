// What follows from the definitions.

ghost use Rattle.std.specs.Prelude.{◌≡◌, ℕ, List};
ghost use Rattle.cedar_data.specs.Span.{Span};
ghost use Rattle.schema_syntax_tokens.specs.declared.token.Token.{Token};
ghost use Rattle.schema_assist_words.specs.Before.{IsPartialWord, StandBefore};
ghost use Rattle.schema_assist_words.specs.Refusals.{IsAssistRefusal};
ghost use Rattle.schema_assist_words.specs.declared.text_before.AssistError.{AssistError};
ghost use Rattle.schema_assist_words.specs.declared.text_before.AssistError.TheVariants.{Memory};

use schema_syntax_grammar::laws::viable_fronts;
use schema_syntax_tokens::laws::one_scan;

/// A head has one partial word.
pub fn one_partial_word()
    ensures { (head : List ℕ) (first second : Span) → IsPartialWord head first → IsPartialWord head second
        → first ≡ second }
{
    one_scan();
}

/// A place of a text has one partial word and one list of tokens in front of it.
pub fn one_front()
    ensures { (text : List ℕ) (at : ℕ) (partial other : Span) (front tokens : List Token)
        → StandBefore text at partial front → StandBefore text at other tokens → (partial ≡ other) × (front ≡ tokens) }
{
    one_scan();
    one_partial_word();
}

/// Where there are tokens before a place with which some schema begins, nothing is refused but for memory.
pub fn front_or_refusal()
    ensures { (text : List ℕ) (at : ℕ) (partial : Span) (front : List Token) (error : AssistError)
        → StandBefore text at partial front → IsAssistRefusal text at error → error ≡ Memory }
{
    one_scan();
    one_partial_word();
    viable_fronts();
}
