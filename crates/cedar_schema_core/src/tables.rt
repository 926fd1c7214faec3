//! The tables of extension types that words ask for.
ghost use Rattle.std.specs.Prelude.{◌≡◌, ◌≢◌, ◌↔◌, ℕ, List, [], ◌∷◌, IfOk, IsTrue, MatchOption, map};
ghost use Rattle.std.specs.List.Sorted.{IsStrictlySortedBy};
ghost use Rattle.std.specs.String.{string_bytes};
ghost use Rattle.cedar_data.specs.Text.{text_cmp};
ghost use Rattle.cedar_names.specs.declared.extension_table.ExtensionTable.{ExtensionTable};
ghost use Rattle.cedar_schema_core.specs.Commands.{IsTableInOrder, AsksForTable};

use cedar_names::{ExtensionTable, TableError};
use std::alloc::{AllocError, Global};

// The names of a table stand in the order of their texts.
fn see_order(table: &ExtensionTable)
    ensures { IsStrictlySortedBy (λ a b. text_cmp a.id.text b.id.text) table.now.names }
{
    let _names = table.names.as_slice();
}

/// The table of the extension types with these names, where they make one. It errs when out of memory.
pub fn table_of_names(alloc: Global, names: &[String]) -> Result<Option<ExtensionTable>, AllocError>
    ensures { IfOk result (λ found. MatchOption found
        ((table : ExtensionTable) → IsTableInOrder (map string_bytes names.now) table → ⊥)
        (IsTableInOrder (map string_bytes names.now))) }
{
    match ExtensionTable::new(alloc, names) {
        Ok(table) => {
            see_order(&table);
            Ok(Some(table))
        }
        Err(TableError::Memory) => Err(AllocError),
        Err(_) => Ok(None),
    }
}

// Whether this word is the only one.
fn says_alone(words: &[String], word: &str) -> bool
    ensures { IsTrue result ↔ map string_bytes words.now ≡ word.now ∷ [] }
{
    let [only] = words else {
        return false;
    };
    only.as_str() == word
}

/// The table that the words after a program's name ask for: `plain` alone asks for all extension types, and `with`
/// before names for these. It errs when out of memory.
pub fn table_of_words(
    alloc: Global,
    words: &[String],
    plain: &str,
    with: &str,
) -> Result<Option<ExtensionTable>, AllocError>
    ensures { IfOk result (λ found. MatchOption found
        ((table : ExtensionTable) → AsksForTable plain.now with.now (map string_bytes words.now) table → ⊥)
        (AsksForTable plain.now with.now (map string_bytes words.now))) }
{
    if says_alone(words, plain) {
        return Ok(Some(ExtensionTable::all_available(alloc)?));
    }
    let Some((first, names)) = words.split_first() else {
        return Ok(None);
    };
    if first.as_str() != with {
        return Ok(None);
    }
    table_of_names(alloc, names)
}

/// Law: words ask for one table at most, where the two first words differ.
pub fn one_table()
    ensures { (plain with : List ℕ) (words : List (List ℕ)) (t u : ExtensionTable) → plain ≢ with
        → AsksForTable plain with words t → AsksForTable plain with words u → t ≡ u }
{}
