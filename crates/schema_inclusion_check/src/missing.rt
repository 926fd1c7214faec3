ghost use Rattle.std.specs.Prelude.{◌≡◌, ◌≤◌, true, false, cond, length, take, drop, MatchOption};
ghost use Rattle.std.specs.List.{list_any, find};
ghost use Rattle.std.specs.Option.{option_copied};

// The first of the items that is equal to this one, from a place on and before another.
fn place_between<T: PartialEq>(items: &[T], from: usize, to: usize, item: &T) -> Option<usize>
    requires { to ≤ length items.now }
    ensures { MatchOption result (list_any (T.eq item.now) (drop from (take to items.now)) ≡ false)
        (λ at. (at ≤ length items.now) × (list_any (T.eq item.now) items.now ≡ true)) }
{
    let mut at = from;
    while at < to {
        if *item == items[at] {
            return Some(at);
        }
        at += 1;
    }
    None
}

// Where an item stands that is equal to this one: from a place on, or else before it. So a walk along items that stand
// in one order in both lists looks at each of them once.
pub(crate) fn place_of<T: PartialEq>(items: &[T], from: usize, item: &T) -> Option<usize>
    requires { from ≤ length items.now }
    ensures { MatchOption result (list_any (T.eq item.now) items.now ≡ false)
        (λ at. (at ≤ length items.now) × (list_any (T.eq item.now) items.now ≡ true)) }
{
    match place_between(items, from, items.len(), item) {
        Some(at) => Some(at),
        None => place_between(items, 0, from, item),
    }
}

// The first of the old items that is none of the new ones.
pub(crate) fn first_missing<'a, T: PartialEq>(old: &'a [T], new: &[T]) -> Option<&'a T>
    ensures { option_copied result ≡ find (λ a. cond (list_any (T.eq a) new.now) false true) old.now }
{
    let mut next = 0;
    for item in old {
        match place_of(new, next, item) {
            Some(at) => next = at,
            None => return Some(item),
        }
    }
    None
}
