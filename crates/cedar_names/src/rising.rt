ghost use Rattle.std.specs.List.Sorted.{IsStrictlySortedBy};
ghost use Rattle.cedar_names.specs.Rising.{PassesAlike};

// Puts the items in order, each once: one sort.
pub(crate) fn sort_once<T: Ord + Drop>(items: &mut Vec<T>)
    ensures sorted { IsStrictlySortedBy T.cmp items.new.items }
    ensures same { PassesAlike T.cmp items.old.items items.new.items }
{
    items.sort_unstable();
    items.dedup();
}
