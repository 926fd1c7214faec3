ghost use Rattle.std.specs.Prelude.{◌≡◌, ◌+◌, ◌<◌, ◌^◌, [], ◌∷◌, length, IfSome, IfNone};
ghost use Rattle.cedar_data.specs.NonEmpty.{items_left, items_to_come};
ghost use Rattle.cedar_data.specs.Fed.{first_and_rest, first_and_rest_alike};
ghost use Rattle.std.specs.Cmp.Lexicographic.{slice_cmp, slice_partial_cmp, pointwise, lists_equiv, lists_agrees};
ghost use Rattle.std.specs.Cmp.Lexicographic.{lists_total, lists_ties, lists_po, lists_per};
ghost use Rattle.std.specs.Iterator.{YieldsFirst, YieldsFirstRef, item_count};

use crate::clone_in::CloneIn;
use std::alloc::{AllocError, Global};
use std::cmp::Ordering;
use std::hash::{Hash, Hasher};
use std::marker::Model;
use std::vec::IntoIter;

/// A list with at least one item. Contracts see it as the list.
pub struct NonEmpty<T> {
    head: T,
    tail: Vec<T>,
}

impl<T: Drop> Drop for NonEmpty<T> {
    fn drop(self) {
        let NonEmpty {
            head: _head,
            tail: _tail,
        } = self;
    }
}

impl<T> Model for NonEmpty<T> {
    ghost use Rattle.std.specs.Prelude.{List, ◌∷◌};
    ghost use Rattle.std.specs.Coded.{coded_list};

    ghost Value = { List T };

    ghost coded = { coded_list T.code };

    ghost view = { λ it. it.head ∷ it.tail.items };
}

impl<T> NonEmpty<T> {
    /// The list of this one item, which takes no memory.
    pub fn new(alloc: Global, head: T) -> NonEmpty<T>
        ensures { result ≡ head ∷ [] }
    {
        NonEmpty {
            head,
            tail: Vec::new(alloc),
        }
    }

    /// The list of this item and those behind it, which takes no memory.
    pub fn from_parts(head: T, tail: Vec<T>) -> NonEmpty<T>
        ensures { result ≡ head ∷ tail.items }
    {
        NonEmpty { head, tail }
    }

    /// The first item, and those behind it.
    pub fn into_parts(self) -> (T, Vec<T>)
        ensures { self ≡ result.0 ∷ result.1.items }
    {
        let NonEmpty { head, tail } = self;
        (head, tail)
    }

    /// The first item.
    pub fn first(&self) -> &T
        ensures { (rest : _) × (self.now ≡ result.now ∷ rest) }
    {
        &self.head
    }

    /// The first item, and those behind it.
    pub fn parts(&self) -> (&T, &[T])
        ensures { self.now ≡ result.0.now ∷ result.1.now }
    {
        (&self.head, &self.tail)
    }

    /// The items in order.
    pub fn iter(&self) -> NonEmptyIter<'_, T>
        ensures { items_left result ≡ self.now }
    {
        NonEmptyIter {
            head: Some(&self.head),
            tail: &self.tail,
        }
    }
}

impl<T: Drop> NonEmpty<T> {
    /// The list of these items, and `None` exactly where there is none. It takes no memory.
    pub fn from_vec(mut items: Vec<T>) -> Option<NonEmpty<T>>
        ensures none { IfNone result (items.items ≡ []) }
        ensures some { IfSome result (λ list. (list ≡ items.items) × (0 < length list)) }
    {
        if items.is_empty() {
            return None;
        }
        let head = items.remove(0);
        Some(NonEmpty { head, tail: items })
    }
}

impl<T> NonEmpty<T> {
    /// How many items there are, where the number fits.
    pub fn len(&self) -> usize
        requires { length self.now < 2 ^ 64 }
        ensures { result ≡ length self.now }
    {
        self.tail.len() + 1
    }
}

impl<T: PartialEq> PartialEq for NonEmpty<T> {
    ghost eq = { pointwise T.eq };

    ghost laws = { lists_per T.laws };

    fn eq(&self, other: &NonEmpty<T>) -> bool {
        if self.head == other.head {
            self.tail.as_slice() == other.tail.as_slice()
        } else {
            false
        }
    }
}

impl<T: Eq> Eq for NonEmpty<T> {
    ghost laws = { lists_equiv T.Eq.laws };
}

impl<T: PartialOrd> PartialOrd for NonEmpty<T> {
    ghost partial_cmp = { slice_partial_cmp T.partial_cmp };

    ghost laws = { lists_po T.PartialOrd.laws };

    fn partial_cmp(&self, other: &NonEmpty<T>) -> Option<Ordering> {
        match self.head.partial_cmp(&other.head) {
            Some(Ordering::Equal) => self.tail.as_slice().partial_cmp(other.tail.as_slice()),
            unequal => unequal,
        }
    }
}

impl<T: Ord> Ord for NonEmpty<T> {
    ghost cmp = { slice_cmp T.cmp };

    ghost total = { lists_total T.total };

    ghost matches_partial_cmp = { lists_agrees T.matches_partial_cmp };

    ghost matches_eq = { lists_ties T.cmp T.matches_eq };

    fn cmp(&self, other: &NonEmpty<T>) -> Ordering {
        match self.head.cmp(&other.head) {
            Ordering::Equal => self.tail.as_slice().cmp(other.tail.as_slice()),
            unequal => unequal,
        }
    }
}

impl<T: Hash> Hash for NonEmpty<T> {
    ghost hash_input = { first_and_rest T.hash_input };

    ghost respects_eq = { first_and_rest_alike T.respects_eq };

    fn hash<H: Hasher>(&self, state: &mut H) {
        self.head.hash(state);
        self.tail.as_slice().hash(state);
    }
}

impl<T: CloneIn> CloneIn for NonEmpty<T> {
    fn clone_in(&self, alloc: Global) -> Result<Self, AllocError> {
        let head = self.head.clone_in(alloc)?;
        let mut tail = Vec::new(alloc);
        for item in &self.tail {
            tail.push(item.clone_in(alloc)?)?;
        }
        Ok(NonEmpty { head, tail })
    }
}

/// The items of a list that isn't empty, in order.
pub struct NonEmptyIter<'a, T> {
    head: Option<&'a T>,
    tail: &'a [T],
}

impl<'a, T> Drop for NonEmptyIter<'a, T> {
    fn drop(self) {
        let NonEmptyIter {
            head: _head,
            tail: _tail,
        } = self;
    }
}

impl<'a, T> Iterator for NonEmptyIter<'a, T> {
    type Item = &'a T;

    ghost next_gives = { YieldsFirstRef items_left };

    ghost remaining = { item_count items_left };

    fn next(&mut self) -> Option<&'a T> {
        if let Some(head) = self.head.take() {
            return Some(head);
        }
        let (first, others) = self.tail.split_first()?;
        self.tail = others;
        Some(first)
    }
}

/// The items of a list that isn't empty, handed over in order.
pub struct NonEmptyIntoIter<T> {
    head: Option<T>,
    tail: IntoIter<T>,
}

impl<T: Drop> Drop for NonEmptyIntoIter<T> {
    fn drop(self) {
        let NonEmptyIntoIter {
            head: _head,
            tail: _tail,
        } = self;
    }
}

impl<T: Drop> Iterator for NonEmptyIntoIter<T> {
    type Item = T;

    ghost next_gives = { YieldsFirst items_to_come };

    ghost remaining = { item_count items_to_come };

    fn next(&mut self) -> Option<T> {
        if let Some(head) = self.head.take() {
            return Some(head);
        }
        self.tail.next()
    }
}

impl<T: Drop> IntoIterator for NonEmpty<T> {
    type Item = T;

    type IntoIter = NonEmptyIntoIter<T>;

    ghost into_iter_gives = { λ list items. items_to_come items ≡ list };

    fn into_iter(self) -> NonEmptyIntoIter<T> {
        let NonEmpty { head, tail } = self;
        NonEmptyIntoIter {
            head: Some(head),
            tail: tail.into_iter(),
        }
    }
}
