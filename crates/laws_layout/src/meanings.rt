//! Laws of what laid out texts mean. Each law is what its function ensures; the functions do nothing but cite laws
//! below them.
ghost use Rattle.std.specs.Prelude.{ℕ, List};
ghost use Rattle.cedar_names.specs.declared.extension_table.ExtensionTable.{ExtensionTable};
ghost use Rattle.schema_layout_pieces.specs.LaidOut.{IsLaidOut, IsLaidOutKept, HaveSamePieces};
ghost use Rattle.schema_layout_texts.specs.Answers.{HasTree};
ghost use Rattle.cedar_schema_theorems.specs.Same.{MeanTheSame};

use cedar_schema_theorems::orders::blanks_do_not_matter;
use schema_layout_pieces::laws::pieces_of_texts;
use schema_layout_texts::laws::{kept_schemas_stay, laid_schemas_stay};

/// Texts with the same tokens and comments mean the same.
pub fn same_pieces_mean_the_same()
    ensures { (text other : List ℕ) (table : ExtensionTable) → HaveSamePieces text other
        → MeanTheSame text other table }
{
    pieces_of_texts();
    blanks_do_not_matter();
}

/// A schema laid out, with its empty lines or without any, means what it meant before: it is valid under a table
/// exactly where it was valid, with the same meaning.
pub fn laid_schemas_mean_the_same()
    ensures plain { (old new : List ℕ) (table : ExtensionTable) → HasTree old → IsLaidOut old new
        → MeanTheSame old new table }
    ensures kept { (old new : List ℕ) (table : ExtensionTable) → HasTree old → IsLaidOutKept old new
        → MeanTheSame old new table }
{
    laid_schemas_stay();
    kept_schemas_stay();
    same_pieces_mean_the_same();
}
