ghost use Rattle.std.specs.Prelude.{◌≡◌, [], ◌∷◌, ◌++◌, List, MatchOption};
ghost use Rattle.schema_build_checks.specs.Least.{IsFirstLeast};

// The least of these, and of equal ones the first.
pub(crate) fn least<T: Ord + Drop>(items: Vec<T>) -> Option<T>
    ensures { MatchOption result (items.items ≡ []) (IsFirstLeast T.cmp items.items) }
{
    let mut least = None;
    for item in items {
        least = Some(lesser(least, item));
    }
    least
}

// The least of these, of which the first is the least of those before, and of equal ones the first.
fn lesser<T: Ord + Drop>(least: Option<T>, item: T) -> T
    ensures { (xs : List T) → MatchOption least (xs ≡ []) (IsFirstLeast T.cmp xs)
        → IsFirstLeast T.cmp (xs ++ item ∷ []) result }
{
    match least {
        Some(other) => {
            if item.cmp(&other).is_lt() {
                item
            } else {
                other
            }
        }
        None => item,
    }
}
