ghost use Rattle.std.specs.Prelude.{◌≡◌, true, None, map, option_map, IfOk};
ghost use Rattle.std.specs.List.Sorted.{IsStrictlySortedBy};
ghost use Rattle.std.specs.Ordering.{nat_cmp};
ghost use Rattle.schema_convert_openings.specs.Repeats.{first_repeat, fingerprint, both_now};

use std::alloc::{AllocError, Global};
use std::collections::BTreeMap;
use std::hash::{FoldHasher, Hash, Hasher};

// A number that the same items have in common, and others seldom.
fn fingerprint<T: Hash>(item: &T) -> u64
    ensures { result ≡ fingerprint (T.hash_input item.now) }
{
    let mut hasher = FoldHasher::default();
    item.hash(&mut hasher);
    hasher.finish()
}

// Whether each of the numbers is less than the next.
fn all_rise(numbers: &Vec<u64>) -> bool
    ensures { result ≡ true → IsStrictlySortedBy nat_cmp numbers.now.items }
{
    for next in 1..numbers.len() {
        if numbers[next - 1] >= numbers[next] {
            return false;
        }
    }
    true
}

// Whether it is seen at once that no two of the items are the same: no two of their fingerprints are.
fn are_apart<'a, T: Ord + Hash>(alloc: Global, items: &Vec<&'a T>) -> Result<bool, AllocError>
    ensures { IfOk result (λ apart. apart ≡ true → first_repeat T.cmp (map (λ x. x.now) items.now.items) ≡ None) }
{
    let mut numbers = Vec::with_capacity(alloc, items.len())?;
    for item in items {
        numbers.push(fingerprint(*item))?;
    }
    numbers.sort_unstable();
    Ok(all_rise(&numbers))
}

// The first that is the same as one before it, as the items go into a map in turn.
fn repeat_in<'a, T: Ord>(
    alloc: Global,
    items: &Vec<&'a T>,
) -> Result<Option<(&'a T, &'a T)>, AllocError>
    ensures { IfOk result (λ found. option_map both_now found ≡ first_repeat T.cmp (map (λ x. x.now) items.now.items)) }
{
    let mut seen = BTreeMap::new(alloc);
    for item in items {
        let item = *item;
        match seen.get(&item) {
            Some(first) => return Ok(Some((*first, item))),
            None => {
                seen.insert(item, item)?;
            }
        }
    }
    Ok(None)
}

/// Of these items the first that is the same as one before it, behind the first that it is the same as. Where no two
/// have one fingerprint, no item is compared with another, and no map is made of them.
pub fn first_repeat<'a, T: Ord + Hash>(
    alloc: Global,
    items: Vec<&'a T>,
) -> Result<Option<(&'a T, &'a T)>, AllocError>
    ensures { IfOk result (λ found. option_map both_now found
        ≡ first_repeat T.cmp (map (λ x. x.now) items.entry.items)) }
{
    if are_apart(alloc, &items)? {
        return Ok(None);
    }
    repeat_in(alloc, &items)
}
