//! Laws of registries. Each law is what its function ensures; the functions do nothing but cite laws below them.
ghost use Rattle.std.specs.Prelude.{◌≡◌, ◌↔◌, ℕ, List};
ghost use Rattle.cedar_names.specs.Meaning.{SchemaMeaning};
ghost use Rattle.cedar_names.specs.declared.extension_table.ExtensionTable.{ExtensionTable};
ghost use Rattle.schema_registry.specs.Replies.{AreMeanings, HasEntry};

use cedar_schema_core::one_text_meaning;

/// Messages have one list of meanings.
pub fn one_list_of_meanings()
    ensures { (table : ExtensionTable) (messages : List (List ℕ)) (all others : List SchemaMeaning)
        → AreMeanings table messages all → AreMeanings table messages others → all ≡ others }
{
    one_text_meaning();
}

/// Two messages that are entered share an entry exactly where their meanings are equal.
pub fn entries_are_meanings()
    ensures { (table : ExtensionTable) (messages : List (List ℕ)) (all : List SchemaMeaning)
        (message other : List ℕ) (j k : ℕ) → AreMeanings table messages all
        → (h : HasEntry table all message j) → (i : HasEntry table all other k) → j ≡ k ↔ h.meaning ≡ i.meaning }
{}
