ghost use Rattle.std.specs.Prelude.{◌≡◌, ◌+◌, ◌-◌, ◌*◌, ◌^◌, ◌<◌, ◌≤◌, length, map, IfOk, IfErr};
ghost use Rattle.std.specs.BTreeMap.{is_at};
ghost use Rattle.std.specs.Map.{lookup, keys_of};
ghost use Rattle.std.specs.List.Sorted.{IsStrictlySortedBy};
ghost use Rattle.std.specs.Option.{option_copied};
ghost use Rattle.cedar_data.specs.Halving.{IsHit, IsGap};

use crate::entries::Keyed;
use cedar_names::Steps;
use std::cmp::Ordering;
use std::sync::ledger::Ledger;

/// The value at the key among entries whose keys rise, found by halving. A step is one comparison with an entry's key.
pub fn get_counted<'a, E: Keyed, L: Ledger>(
    entries: &'a [E],
    key: &E::Key,
    steps: &mut Steps<L>,
) -> Option<&'a E::Value>
    requires { IsStrictlySortedBy E.Key.cmp (keys_of (map E.pair entries.now)) }
    ensures value { option_copied result ≡ lookup (is_at (E.Key.cmp key.now)) (map E.pair entries.now) }
    ensures counted { steps.old ≤ steps.new }
    ensures cost { 2 ^ (steps.new - steps.old) ≤ 2 * length entries.now + 1 }
{
    match search_counted(entries, key, steps) {
        Ok(at) => Some(entries[at].value()),
        Err(_) => None,
    }
}

// Where the key stands among entries whose keys rise, or the gap where it would stand.
fn search_counted<E: Keyed, L: Ledger>(
    entries: &[E],
    key: &E::Key,
    steps: &mut Steps<L>,
) -> Result<usize, usize>
    requires { IsStrictlySortedBy E.Key.cmp (keys_of (map E.pair entries.now)) }
    ensures found { IfOk result (λ at. IsHit E.Key.cmp key.now (map E.pair entries.now) at) }
    ensures absent { IfErr result (λ at. IsGap E.Key.cmp key.now (map E.pair entries.now) at at) }
    ensures counted { steps.old ≤ steps.new }
    ensures cost { 2 ^ (steps.new - steps.old) ≤ 2 * length entries.now + 1 }
{
    let mut low = 0;
    let mut high = entries.len();
    while low < high {
        let middle = low + (high - low) / 2;
        steps.tick();
        match entries[middle].key().cmp(key) {
            Ordering::Less => low = middle + 1,
            Ordering::Greater => high = middle,
            Ordering::Equal => return Ok(middle),
        }
    }
    Err(low)
}
