ghost use Rattle.std.specs.Prelude.{◌≡◌, true, length, IfOk, IfErr};
ghost use Rattle.std.specs.declared.cmp.Ordering.{Ordering};
ghost use Rattle.std.specs.declared.cmp.Ordering.TheVariants.{Less, Greater};
ghost use Rattle.std.specs.List.{list_any};
ghost use Rattle.std.specs.Ordering.{is_eq};
ghost use Rattle.std.specs.List.Sorted.{IsStrictlySortedBy};
ghost use Rattle.cedar_names.specs.Searches.{IsAt, StandsWithin, IsSpent};

use crate::steps::Counter;
use std::cmp::Ordering;

// What is sought among items that rise.
pub(crate) trait Sought<T> {
    // the order in which items rise
    ghost order: { T → T → Ordering };

    // how an item stands to what is sought
    ghost place: { Self → T → Ordering };

    ghost below: { (s : Self) (x y : T) → order x y ≡ Less → place s y ≡ Less → place s x ≡ Less };

    ghost above: { (s : Self) (x y : T) → order x y ≡ Less → place s x ≡ Greater → place s y ≡ Greater };

    fn compare(&self, item: &T) -> Ordering
        ensures { result ≡ place self.now item.now };
}

// Where the item is that is sought, or where it would be. A step is one comparison with an item.
pub(crate) fn find<T, S: Sought<T>, C: Counter>(
    items: &[T],
    sought: &S,
    counter: &mut C,
) -> Result<usize, usize>
    requires { IsStrictlySortedBy S.order items.now }
    ensures found { IfOk result (λ at. IsAt (S.place sought.now) items.now at) }
    ensures absent { IfErr result (λ at. StandsWithin (S.place sought.now) items.now at at) }
    ensures spent { IsSpent C.counts (C.taken counter.old) (C.taken counter.new) (length items.now) }
{
    let mut low = 0;
    let mut high = items.len();
    while low < high {
        let middle = low + (high - low) / 2;
        counter.note();
        match sought.compare(&items[middle]) {
            Ordering::Less => low = middle + 1,
            Ordering::Greater => high = middle,
            Ordering::Equal => return Ok(middle),
        }
    }
    Err(low)
}

// Whether an item is the one that is sought.
pub(crate) fn is_there<T, S: Sought<T>, C: Counter>(
    items: &[T],
    sought: &S,
    counter: &mut C,
) -> bool
    requires { IsStrictlySortedBy S.order items.now }
    ensures there { result ≡ list_any (λ x. is_eq (S.place sought.now x)) items.now }
    ensures spent { IsSpent C.counts (C.taken counter.old) (C.taken counter.new) (length items.now) }
{
    match find(items, sought, counter) {
        Ok(_) => true,
        Err(_) => false,
    }
}
