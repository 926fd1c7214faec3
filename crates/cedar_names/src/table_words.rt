ghost use Rattle.std.specs.Prelude.{◌≡◌, ◌≢◌, ℕ, List, true, false, not, ◌||◌, Some, None, IfOk, IfErr, OnOk};
ghost use Rattle.std.specs.List.{list_any};
ghost use Rattle.std.specs.Str.{bytes_eq};
ghost use Rattle.cedar_identifiers.specs.Words.{is_reserved, is_cedar};
ghost use Rattle.cedar_data.specs.Words.{is_word};
ghost use Rattle.cedar_names.specs.TableNames.{is_builtin, word_fault};

use crate::table_error::TableError;
use cedar_data::{Set, Text, is_word};
use cedar_identifiers::{Id, UnreservedId, is_cedar, is_reserved};
use std::alloc::{AllocError, Global};
use std::collections::BTreeSet;

// Whether every schema has something of this name.
fn is_builtin(word: &str) -> bool
    ensures { result ≡ is_builtin word.now }
{
    match word {
        "Bool" | "Long" | "String" | "Action" => true,
        _ => false,
    }
}

// The name, where nothing but the names before it may keep it from being one of a table.
pub(crate) fn lawful_name(alloc: Global, at: usize, name: &str) -> Result<UnreservedId, TableError>
    ensures ok { IfOk result (λ id. (id.id.text ≡ name.now) × (word_fault at name.now ≡ None)) }
    ensures err { IfErr result (λ e. e ≢ TableError.Memory → word_fault at name.now ≡ Some e) }
{
    if !is_word(name) {
        return Err(TableError::NotWord(at));
    }
    if is_reserved(name) || is_cedar(name) {
        return Err(TableError::Reserved(at));
    }
    if is_builtin(name) {
        return Err(TableError::Builtin(at));
    }
    Ok(word(alloc, name)?)
}

// The word as one of a declared name.
pub(crate) fn word(alloc: Global, name: &str) -> Result<UnreservedId, AllocError>
    requires word { is_word name.now ≡ true }
    requires free { (is_reserved name.now || is_cedar name.now) ≡ false }
    ensures { IfOk result (λ id. id.id.text ≡ name.now) }
{
    let text = Text::from_str(alloc, name)?;
    Ok(UnreservedId { id: Id { text } })
}

// Adds the word to the set, and says whether it is new there.
pub(crate) fn add(seen: &mut BTreeSet<UnreservedId>, id: UnreservedId) -> Result<bool, AllocError>
    ensures added { IfOk result (λ added. added ≡ not (list_any (λ n. bytes_eq id.id.text n.id.text) seen.old.keys)) }
    ensures same { OnOk result ((text : List ℕ) → list_any (λ n. bytes_eq text n.id.text) seen.new.keys
        ≡ (list_any (λ n. bytes_eq text n.id.text) seen.old.keys || bytes_eq text id.id.text)) }
    ensures builtin { OnOk result (list_any (λ n. is_builtin n.id.text) seen.new.keys
        ≡ (list_any (λ n. is_builtin n.id.text) seen.old.keys || is_builtin id.id.text)) }
{
    let added = seen.insert(id)?;
    Ok(added)
}

// The words of the set.
pub(crate) fn into_set(
    alloc: Global,
    seen: BTreeSet<UnreservedId>,
) -> Result<Set<UnreservedId>, AllocError>
    ensures { IfOk result (λ set. set ≡ seen.keys) }
{
    let _ = seen.len();
    let mut items = Vec::new(alloc);
    for id in seen {
        items.push(id)?;
    }
    Ok(Set::from_sorted_vec(items))
}
