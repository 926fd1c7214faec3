//! Laws of whole texts. Each law is what its function ensures.
ghost use Rattle.std.specs.Prelude.{ℕ, List};
ghost use Rattle.schema_layout_pieces.specs.LaidOut.{IsLaidOut, IsLaidOutKept, HaveSamePieces};
ghost use Rattle.schema_layout_texts.specs.Answers.{HasTree, StaysLaidOut, StaysLaidOutKept};

use laws_written::laws::lexemes_decide_what_is_said;
use schema_layout_pieces::laws::{kept_texts_stay, laid_texts_stay, pieces_of_texts};
use schema_syntax_parser::syntax_is_sentence;
use schema_syntax_tokens::laws::one_scan;

/// A text with the tokens and comments of a schema is a schema.
pub fn pieces_make_schemas()
    ensures { (old new : List ℕ) → HasTree old → HaveSamePieces old new → HasTree new }
{
    pieces_of_texts();
    one_scan();
    syntax_is_sentence();
    lexemes_decide_what_is_said();
}

/// A schema text laid out has the tokens and comments of that text, so that it is a schema, and it stays as it is when
/// it is laid out again.
pub fn laid_schemas_stay()
    ensures pieces { (old new : List ℕ) → HasTree old → IsLaidOut old new → HaveSamePieces old new }
    ensures schema { (old new : List ℕ) → HasTree old → IsLaidOut old new → HasTree new }
    ensures fixed { (old new : List ℕ) → HasTree old → IsLaidOut old new → StaysLaidOut new }
{
    pieces_of_texts();
    laid_texts_stay();
    pieces_make_schemas();
}

/// A schema text laid out with its empty lines has the tokens and comments of that text, so that it is a schema, and it
/// stays as it is when it is laid out so again.
pub fn kept_schemas_stay()
    ensures pieces { (old new : List ℕ) → HasTree old → IsLaidOutKept old new → HaveSamePieces old new }
    ensures schema { (old new : List ℕ) → HasTree old → IsLaidOutKept old new → HasTree new }
    ensures fixed { (old new : List ℕ) → HasTree old → IsLaidOutKept old new → StaysLaidOutKept new }
{
    pieces_of_texts();
    kept_texts_stay();
    pieces_make_schemas();
}
