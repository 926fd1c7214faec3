ghost use Rattle.std.specs.Prelude.{◌≡◌, ◌++◌, ◌<◌, true, map, length, IfOk, IfSome, OnOk};
ghost use Rattle.std.specs.List.{All, IsDistinct};
ghost use Rattle.std.specs.List.Sorted.{IsPermutation, IsStrictlySortedBy};
ghost use Rattle.std.specs.Map.{keys_of};
ghost use Rattle.std.specs.Ordering.{eq_by_cmp};
ghost use Rattle.cedar_data.specs.Maps.{map_of};
ghost use Rattle.schema_convert_fragments.specs.Declarations.{each_with};

use cedar_data::{CloneIn, Map};
use std::alloc::{AllocError, Global};
use std::cmp::Ordering;
use std::mem;

/// The map of these entries, of which the last of a key counts. They are put in order as a whole, so that none is moved
/// for each that comes behind it.
pub fn map_of<K: Ord + Drop, T: Drop>(
    alloc: Global,
    mut entries: Vec<(K, T)>,
) -> Result<Map<K, T>, AllocError>
    ensures { IfOk result (λ map. map ≡ map_of K.cmp entries.items) }
{
    entries.sort_by(|a, b| a.0.cmp(&b.0))?;
    Map::from_entries(alloc, entries)
}

// Fewer entries are put in order as they stand, whatever the size of one.
const MANY: usize = 32;

/// The map of these entries, of which the last of a key counts. Where there are many, their keys are put in order, and
/// then each entry is moved to its place.
pub fn map_by_places<K: Ord + Drop, T: Drop>(
    alloc: Global,
    entries: Vec<(K, T)>,
) -> Result<Map<K, T>, AllocError>
    ensures { IfOk result (λ map. map ≡ map_of K.cmp entries.items) }
{
    if entries_rise(&entries) {
        return Ok(Map::from_sorted_vec(entries));
    }
    if entries.len() < MANY {
        return map_of(alloc, entries);
    }
    map_of_many(alloc, entries)
}

// Whether the key of each entry is less than that of the next.
fn entries_rise<K: Ord, T>(entries: &Vec<(K, T)>) -> bool
    ensures { result ≡ true → IsStrictlySortedBy K.cmp (keys_of entries.now.items) }
{
    for next in 1..entries.len() {
        match entries[next - 1].0.cmp(&entries[next].0) {
            Ordering::Less => {}
            _ => return false,
        }
    }
    true
}

// The map of entries that take much to move.
fn map_of_many<K: Ord + Drop, T: Drop>(
    alloc: Global,
    mut entries: Vec<(K, T)>,
) -> Result<Map<K, T>, AllocError>
    ensures { IfOk result (λ map. map ≡ map_of K.cmp entries.items) }
{
    let found = places_in_order(alloc, &entries)?;
    match found {
        None => map_of(alloc, entries),
        Some(places) => {
            move_to_places(&mut entries, places);
            Map::from_entries(alloc, entries)
        }
    }
}

// Where the entries stand in the order of their keys, and `None` where two keys are the same.
fn places_in_order<K: Ord, T>(
    alloc: Global,
    entries: &Vec<(K, T)>,
) -> Result<Option<Vec<usize>>, AllocError>
    ensures distinct { IfOk result (λ found. IfSome found
        (λ _. IsDistinct (eq_by_cmp K.cmp) (keys_of entries.now.items))) }
    ensures len { IfOk result (λ found. IfSome found (λ places. length places.items ≡ length entries.now.items)) }
    ensures in_range { IfOk result (λ found. IfSome found
        (λ places. All (λ p. p < length entries.now.items) places.items)) }
{
    let mut keys = placed_keys(alloc, entries)?;
    keys.sort_by(|a, b| a.0.cmp(b.0))?;
    if entries_rise(&keys) {
        let places = places_of(alloc, keys)?;
        return Ok(Some(places));
    }
    Ok(None)
}

// The keys of the entries, each with its place.
fn placed_keys<'a, K: Ord, T>(
    alloc: Global,
    entries: &'a Vec<(K, T)>,
) -> Result<Vec<(&'a K, usize)>, AllocError>
    ensures keys { IfOk result (λ keys. map (λ k. k.0.now) keys.items ≡ keys_of entries.now.items) }
    ensures in_range { IfOk result (λ keys. All (λ k. k.1 < length entries.now.items) keys.items) }
{
    let mut keys = Vec::with_capacity(alloc, entries.len())?;
    for place in 0..entries.len() {
        keys.push((&entries[place].0, place))?;
    }
    Ok(keys)
}

// The places alone.
fn places_of<K>(alloc: Global, keys: Vec<(&K, usize)>) -> Result<Vec<usize>, AllocError>
    ensures { IfOk result (λ places. places.items ≡ map (λ k. k.1) keys.entry.items) }
{
    let mut places = Vec::with_capacity(alloc, keys.len())?;
    for (_, place) in keys {
        places.push(place)?;
    }
    Ok(places)
}

// Moves to each place the item that stands at the place that is named there.
fn move_to_places<T>(items: &mut Vec<T>, mut places: Vec<usize>)
    requires len { length places.items ≡ length items.old.items }
    requires in_range { All (λ p. p < length items.old.items) places.items }
    ensures { IsPermutation items.old.items items.new.items }
{
    for start in 0..items.len() {
        move_round(items, &mut places, start);
    }
}

// Moves the items of one cycle: to the place `start` the one that is named there, to that one's place the next, and so
// on until all of these stand where they belong. Each of the places then names itself.
fn move_round<T>(items: &mut Vec<T>, places: &mut Vec<usize>, start: usize)
    requires start { start < length items.old.items }
    requires len { length places.old.items ≡ length items.old.items }
    requires in_range { All (λ p. p < length items.old.items) places.old.items }
    ensures moved { IsPermutation items.old.items items.new.items }
    ensures same_len { length items.new.items ≡ length items.old.items }
    ensures len { length places.new.items ≡ length items.old.items }
    ensures in_range { All (λ p. p < length items.old.items) places.new.items }
{
    let mut at = start;
    for _ in 0..items.len() {
        let from = places[at];
        places[at] = at;
        if from == start {
            return;
        }
        items.swap(at, from);
        at = from;
    }
}

/// Adds each of the names with the same beside it: the item itself for the last name, and copies for the others.
pub fn push_each<K: Drop, T: CloneIn>(
    alloc: Global,
    entries: &mut Vec<(K, T)>,
    names: Vec<K>,
    item: T,
) -> Result<(), AllocError>
    ensures { OnOk result (entries.new.items ≡ entries.old.items ++ each_with item names.items) }
{
    let mut names = names.into_iter();
    let Some(mut name) = names.next() else {
        return Ok(());
    };
    for next in names {
        let copy = item.clone_in(alloc)?;
        let before = mem::replace(&mut name, next);
        entries.push((before, copy))?;
    }
    entries.push((name, item))?;
    Ok(())
}
