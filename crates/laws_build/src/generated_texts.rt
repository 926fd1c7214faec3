//! Laws of generated texts. Each law is what its function ensures; the functions do nothing but cite laws below them.
ghost use Rattle.std.specs.Prelude.{◌≤◌, ℕ};
ghost use Rattle.cedar_identifiers.specs.declared.raw_name.RawName.{RawName};
ghost use Rattle.cedar_names.specs.Meaning.{SchemaMeaning};
ghost use Rattle.cedar_names.specs.declared.extension_table.ExtensionTable.{ExtensionTable};
ghost use Rattle.schema_json.specs.declared.fragment.Fragment.{Fragment};
ghost use Rattle.schema_json.specs.AsWritten.{as_written};
ghost use Rattle.laws_translate.specs.FragmentsSay.{FragmentSays};
ghost use Rattle.laws_translate.specs.TranslatedAs.{IsTranslatedAs};
ghost use Rattle.schema_build_checks.specs.Rows.{Never};
ghost use Rattle.schema_build_parts.specs.BuildFaults.{BuildFault};
ghost use Rattle.schema_build_text.specs.Captured.{IsUncaptured};
ghost use Rattle.schema_build.specs.Meaning.{FragmentMeaning};
ghost use Rattle.schema_generate.specs.Generated.{max_size, generated};
ghost use Rattle.laws_build.specs.Generated.Declares.{generated_items};

use laws_translate::laws::texts_that_read_back_are_translated;
use schema_syntax_tokens::laws::{laid_text_is_read, one_value};

/// A generated text of a size from 1 to 4,096 has no fault of syntax or of translation, and its fragment says what the
/// text declares.
pub fn generated_texts_are_translated()
    ensures { (n : ℕ) → 1 ≤ n → n ≤ max_size → IsTranslatedAs (generated n) (generated_items n) }
{
    laid_text_is_read();
    one_value();
    texts_that_read_back_are_translated();
}

/// A fragment that says what a generated text of a positive size declares has no build fault under any table; where the
/// size is at most 4,096, it means something in which nothing is captured.
pub fn what_is_generated_means_something()
    ensures faultless { (n : ℕ) → 1 ≤ n → (f : Fragment RawName as_written) → FragmentSays f (generated_items n)
        → (table : ExtensionTable) → Never (BuildFault f table) }
    ensures means { (n : ℕ) → 1 ≤ n → n ≤ max_size → (f : Fragment RawName as_written)
        → FragmentSays f (generated_items n) → (table : ExtensionTable)
        → (m : SchemaMeaning) × FragmentMeaning f table m × IsUncaptured m }
{}
