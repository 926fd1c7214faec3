ghost use Rattle.std.specs.Prelude.{◌≡◌, ◌≤◌, length, map};
ghost use Rattle.std.specs.List.{find};
ghost use Rattle.std.specs.List.Sorted.{IsStrictlySortedBy};
ghost use Rattle.std.specs.Option.{option_copied};
ghost use Rattle.std.specs.Ordering.{is_eq};
ghost use Rattle.schema_inclusion_check.specs.Below.{AreBelow};

use schema_build_types::Keyed;
use std::cmp::Ordering;

// The entry of the key among entries whose keys rise, from a place on before which all keys are less, and the place
// before which they still are. So a walk along two lists looks at each entry once.
pub(crate) fn seek<'a, E: Keyed>(
    entries: &'a [E],
    from: usize,
    key: &E::Key,
) -> (usize, Option<&'a E>)
    requires sorted { IsStrictlySortedBy E.Key.cmp (map (λ e. (E.pair e).0) entries.now) }
    requires below { AreBelow E.Key.cmp (λ e. (E.pair e).0) entries.now from key.now }
    requires within { from ≤ length entries.now }
    ensures value { option_copied result.1 ≡ find (λ e. is_eq (E.Key.cmp (E.pair e).0 key.now)) entries.now }
    ensures below { AreBelow E.Key.cmp (λ e. (E.pair e).0) entries.now result.0 key.now }
    ensures within { result.0 ≤ length entries.now }
{
    let mut at = from;
    while at < entries.len() {
        match entries[at].key().cmp(key) {
            Ordering::Less => at += 1,
            Ordering::Equal => return (at, Some(&entries[at])),
            Ordering::Greater => return (at, None),
        }
    }
    (at, None)
}

// Where the entries begin whose keys are not less than this one, among entries whose keys rise, found by halving.
pub(crate) fn first_from<E: Keyed>(entries: &[E], key: &E::Key) -> usize
    requires { IsStrictlySortedBy E.Key.cmp (map (λ e. (E.pair e).0) entries.now) }
    ensures below { AreBelow E.Key.cmp (λ e. (E.pair e).0) entries.now result key.now }
    ensures within { result ≤ length entries.now }
{
    let mut low = 0;
    let mut high = entries.len();
    while low < high {
        let middle = low + (high - low) / 2;
        match entries[middle].key().cmp(key) {
            Ordering::Less => low = middle + 1,
            Ordering::Equal => high = middle,
            Ordering::Greater => high = middle,
        }
    }
    low
}
