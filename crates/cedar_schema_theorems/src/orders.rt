//! Laws of texts that mean the same. Each law is what its function ensures; the functions do nothing but cite laws
//! below them.
ghost use Rattle.std.specs.Prelude.{◌↔◌, ℕ, List};
ghost use Rattle.cedar_names.specs.declared.extension_table.ExtensionTable.{ExtensionTable};
ghost use Rattle.laws_written.specs.Written.{WrittenItem};
ghost use Rattle.laws_build.specs.Orders.Reordered.{IsReordered, IsReorderedWithin, IsDivided, AreRearranged};
ghost use Rattle.laws_build.specs.Orders.Texts.{IsWrittenAs, HaveTheSameTokens};
ghost use Rattle.cedar_schema_core.specs.Meanings.{IsValid};
ghost use Rattle.cedar_schema_theorems.specs.Same.{MeanTheSame};

use laws_build::rearranged_texts::{
    rearranged_texts_are_translated, reordered_texts_are_rearranged, same_tokens_are_translated,
    translated_texts_are_written, what_declares_the_same_means_the_same,
};

/// Blanks and comments do not matter: texts with the same tokens mean the same.
pub fn blanks_do_not_matter()
    ensures { (text other : List ℕ) (table : ExtensionTable) → HaveTheSameTokens text other
        → MeanTheSame text other table }
{
    same_tokens_are_translated();
    what_declares_the_same_means_the_same();
}

/// Texts whose tokens spell the same declarations in each namespace mean the same, in whatever order these stand and
/// over however many openings.
pub fn rearranged_texts_mean_the_same()
    ensures { (text other : List ℕ) (table : ExtensionTable) (w v : List WrittenItem) → IsWrittenAs text w
        → IsWrittenAs other v → AreRearranged w v → MeanTheSame text other table }
{
    rearranged_texts_are_translated();
    reordered_texts_are_rearranged();
    what_declares_the_same_means_the_same();
}

/// Order does not matter: texts mean the same where whole items, or whole declarations of one opening of a namespace,
/// stand in another order.
pub fn order_does_not_matter()
    ensures items { (text other : List ℕ) (table : ExtensionTable) (w v : List WrittenItem) → IsWrittenAs text w
        → IsWrittenAs other v → IsReordered w v → MeanTheSame text other table }
    ensures declarations { (text other : List ℕ) (table : ExtensionTable) (w v : List WrittenItem)
        → IsWrittenAs text w → IsWrittenAs other v → IsReorderedWithin w v → MeanTheSame text other table }
{
    reordered_texts_are_rearranged();
    rearranged_texts_mean_the_same();
}

/// Divisions do not matter: texts mean the same where the declarations of one opening are divided, in order, over two,
/// whatever annotations the openings have.
pub fn divisions_do_not_matter()
    ensures { (text other : List ℕ) (table : ExtensionTable) (w v : List WrittenItem) → IsWrittenAs text w
        → IsWrittenAs other v → IsDivided w v → MeanTheSame text other table }
{
    reordered_texts_are_rearranged();
    rearranged_texts_mean_the_same();
}

/// Texts that mean the same are valid together.
pub fn valid_together()
    ensures { (text other : List ℕ) (table : ExtensionTable) → MeanTheSame text other table
        → IsValid text table ↔ IsValid other table }
{}

/// The tokens of a valid text spell something, so that it can be written in another order.
pub fn valid_texts_are_written()
    ensures { (text : List ℕ) (table : ExtensionTable) → IsValid text table
        → (w : List WrittenItem) × IsWrittenAs text w }
{
    translated_texts_are_written();
}
