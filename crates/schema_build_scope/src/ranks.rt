ghost use Rattle.std.specs.Prelude.{◌≡◌, ◌≤◌, true, length, IfSome, IfOk, IfErr};
ghost use Rattle.std.specs.Map.{keys_of};
ghost use Rattle.std.specs.Option.{option_copied};
ghost use Rattle.std.specs.List.Sorted.{IsStrictlySortedBy};
ghost use Rattle.cedar_data.specs.Halving.{IsHit, IsGap};
ghost use Rattle.cedar_identifiers.specs.Candidates.{qualified};
ghost use Rattle.cedar_names.specs.Orders.{names_in_order};

use cedar_identifiers::InternalName;
use cedar_names::compare_behind;
use schema_resolve_targets::tried::is_unqualified;
use std::cell::Cell;
use std::cmp::Ordering;

// Where a name was found last, and where one would stand that was not found last: most are looked up in order, and few
// are not found.
#[derive(Drop)]
pub(crate) struct Recent {
    found: Cell<usize>,
    gap: Cell<usize>,
}

impl Recent {
    pub(crate) fn new() -> Recent {
        Recent {
            found: Cell::new(0),
            gap: Cell::new(0),
        }
    }
}

// Where the name stands, with the namespace before it, among entries whose names rise, or the gap where it would stand:
// at or beside a recent place, or else found by halving.
pub(crate) fn search<V>(
    entries: &[(InternalName, V)],
    recent: &Recent,
    ns: Option<&InternalName>,
    name: &InternalName,
) -> Result<usize, usize>
    requires { IsStrictlySortedBy names_in_order (keys_of entries.now) }
    ensures found { IfOk result (λ at. IsHit names_in_order (qualified (option_copied ns.entry) name.now) entries.now
        at) }
    ensures absent { IfErr result (λ at. IsGap names_in_order (qualified (option_copied ns.entry) name.now) entries.now
        at at) }
{
    if let Some(at) = found_near(entries, recent.found.get(), ns, name) {
        recent.found.set(at);
        return Ok(at);
    }
    let gap = recent.gap.get();
    if is_gap(entries, gap, ns, name) {
        return Err(gap);
    }
    let found = halve(entries, ns, name);
    match found {
        Ok(at) => recent.found.set(at),
        Err(at) => recent.gap.set(at),
    }
    found
}

// The place, where the name stands there, or else the one behind it, where it stands there.
fn found_near<V>(
    entries: &[(InternalName, V)],
    at: usize,
    ns: Option<&InternalName>,
    name: &InternalName,
) -> Option<usize>
    ensures { IfSome result (λ at. IsHit names_in_order (qualified (option_copied ns.entry) name.now) entries.now at) }
{
    if at >= entries.len() {
        return None;
    }
    if is_at(entries, at, ns, name) {
        return Some(at);
    }
    let next = at.saturating_add(1);
    if is_at(entries, next, ns, name) {
        return Some(next);
    }
    None
}

// Whether the name stands at the place.
fn is_at<V>(
    entries: &[(InternalName, V)],
    at: usize,
    ns: Option<&InternalName>,
    name: &InternalName,
) -> bool
    ensures { result ≡ true → IsHit names_in_order (qualified (option_copied ns.entry) name.now) entries.now at }
{
    if at >= entries.len() {
        return false;
    }
    match compare(&entries[at].0, ns, name) {
        Ordering::Equal => true,
        _ => false,
    }
}

// Whether the name would stand between the entry before the place and the one at it.
fn is_gap<V>(
    entries: &[(InternalName, V)],
    at: usize,
    ns: Option<&InternalName>,
    name: &InternalName,
) -> bool
    requires { IsStrictlySortedBy names_in_order (keys_of entries.now) }
    ensures { result ≡ true → IsGap names_in_order (qualified (option_copied ns.entry) name.now) entries.now at at }
{
    if !are_below(entries, at, ns, name) {
        return false;
    }
    if at == entries.len() {
        return true;
    }
    match compare(&entries[at].0, ns, name) {
        Ordering::Greater => true,
        _ => false,
    }
}

// Whether the name would stand behind the entries before the place.
fn are_below<V>(
    entries: &[(InternalName, V)],
    at: usize,
    ns: Option<&InternalName>,
    name: &InternalName,
) -> bool
    requires { IsStrictlySortedBy names_in_order (keys_of entries.now) }
    ensures within { result ≡ true → at ≤ length entries.now }
    ensures below { result ≡ true → IsGap names_in_order (qualified (option_copied ns.entry) name.now) entries.now at
        (length entries.now) }
{
    if at == 0 {
        return true;
    }
    if at > entries.len() {
        return false;
    }
    match compare(&entries[at - 1].0, ns, name) {
        Ordering::Less => true,
        _ => false,
    }
}

// Where the name stands among entries whose names rise, or the gap where it would stand: found by halving.
fn halve<V>(
    entries: &[(InternalName, V)],
    ns: Option<&InternalName>,
    name: &InternalName,
) -> Result<usize, usize>
    requires { IsStrictlySortedBy names_in_order (keys_of entries.now) }
    ensures found { IfOk result (λ at. IsHit names_in_order (qualified (option_copied ns.entry) name.now) entries.now
        at) }
    ensures absent { IfErr result (λ at. IsGap names_in_order (qualified (option_copied ns.entry) name.now) entries.now
        at at) }
{
    let mut low = 0;
    let mut high = entries.len();
    while low < high {
        let middle = low + (high - low) / 2;
        match compare(&entries[middle].0, ns, name) {
            Ordering::Less => low = middle + 1,
            Ordering::Greater => high = middle,
            Ordering::Equal => return Ok(middle),
        }
    }
    Err(low)
}

// How an entry's name stands to the name with the namespace before it, which is not made.
fn compare(entry: &InternalName, ns: Option<&InternalName>, name: &InternalName) -> Ordering
    ensures { result ≡ names_in_order entry.now (qualified (option_copied ns.entry) name.now) }
{
    match ns {
        Some(ns) => {
            if is_unqualified(name) {
                compare_behind(entry, ns, &name.first)
            } else {
                entry.cmp(name)
            }
        }
        None => entry.cmp(name),
    }
}
