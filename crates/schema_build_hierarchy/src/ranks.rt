ghost use Rattle.std.specs.Prelude.{map, IfOk, IfSome};
ghost use Rattle.std.specs.List.Sorted.{IsStrictlySortedBy};
ghost use Rattle.schema_build_hierarchy.specs.Ranks.{AreRanksOf, HasRank, IsRankOf};

use crate::entries::Entry;
use schema_resolve_lookup::Recent;
use std::alloc::{AllocError, Global};
use std::cmp::Ordering;

// The rank of the name among entries in order, where one has it: found by halving, near a recent rank first.
pub(crate) fn rank_of<'f, K: Ord, T>(
    entries: &[Entry<'f, K, T>],
    recent: &Recent,
    name: &K,
) -> Option<usize>
    requires { IsStrictlySortedBy K.cmp (map (λ e. e.name) entries.now) }
    ensures { IsRankOf K.cmp (map (λ e. e.name) entries.now) name.now result }
{
    if let Some(rank) = rank_near(entries, recent, name) {
        return Some(rank);
    }
    match entries.binary_search_by(|entry| entry.name.cmp(name)) {
        Ok(rank) => {
            recent.found(rank);
            Some(rank)
        }
        Err(_) => None,
    }
}

// The rank of the name, where it is near a recent one.
fn rank_near<'f, K: Ord, T>(entries: &[Entry<'f, K, T>], recent: &Recent, name: &K) -> Option<usize>
    ensures { IfSome result (HasRank K.cmp (map (λ e. e.name) entries.now) name.now) }
{
    let (mut low, mut high) = recent.around(entries.len());
    while low < high {
        let middle = low + (high - low) / 2;
        match entries[middle].name.cmp(name) {
            Ordering::Less => low = middle + 1,
            Ordering::Greater => high = middle,
            Ordering::Equal => {
                recent.found(middle);
                return Some(middle);
            }
        }
    }
    None
}

// The ranks of those names that entries in order have.
pub(crate) fn ranks_of<'f, K: Ord, T>(
    alloc: Global,
    entries: &[Entry<'f, K, T>],
    recent: &Recent,
    names: &[K],
) -> Result<Vec<usize>, AllocError>
    requires { IsStrictlySortedBy K.cmp (map (λ e. e.name) entries.now) }
    ensures { IfOk result (λ row. AreRanksOf K.cmp (map (λ e. e.name) entries.now) names.now row.items) }
{
    let mut row = Vec::with_capacity(alloc, names.len())?;
    for name in names {
        match rank_of(entries, recent, name) {
            Some(rank) => row.push(rank)?,
            None => {}
        }
    }
    Ok(row)
}
