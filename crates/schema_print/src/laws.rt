//! Laws of printed fragments. Each law is what its function ensures; the functions do nothing.
ghost use Rattle.std.specs.Prelude.{◌≡◌, Bool, List};
ghost use Rattle.schema_syntax_tokens.specs.Laid.{laid};
ghost use Rattle.laws_written.specs.PrintedDecls.{Group, schema_pieces};
ghost use Rattle.schema_print.specs.PrintedFragments.{fragment_text};
ghost use Rattle.schema_print.specs.FragmentGroups.{AreGroupsOf};

use cedar_identifiers::NameText;
use schema_json::Fragment;

/// The text of a fragment that is written as groups of declarations is these groups laid out.
pub fn fragments_are_laid_out<N: NameText>(fragment: &Fragment<N>)
    ensures { (closing : Bool) (groups : List Group) → AreGroupsOf N.components fragment.now groups
        → fragment_text N.components closing fragment.now ≡ laid (schema_pieces closing groups) }
{}
