ghost use Rattle.std.specs.Ordering.{ordering_then};
ghost use Rattle.std.specs.Cmp.Lexicographic.{lists_equiv, lists_agrees, lists_total, lists_ties, lists_po, lists_per};
ghost use Rattle.std.specs.Cmp.{on_equiv, on_total, on_po, on_per, and_per, and_equiv, then_po, then_total};
ghost use Rattle.std.specs.Cmp.{then_agrees, both_tied};
ghost use Rattle.std.specs.Hash.{on_Alike, items_Alike, and-Alike};
ghost use Rattle.std.specs.Hash as fed;
ghost use Rattle.std.specs.Prelude.{◌≡◌, [], IfOk, length};
ghost use Rattle.std.specs.List.Sorted.{IsStrictlySortedBy};
ghost use Rattle.std.specs.Map.{keys_of};
ghost use Rattle.cedar_data.specs.Maps.{entries_or_none};

use crate::clone_in::CloneIn;
use crate::map::Map;
use crate::shared::Shared;
use std::alloc::{AllocError, Global};
use std::cmp::Ordering;
use std::hash::{Hash, Hasher};
use std::marker::Model;

/// A map that its copies share: neither a copy nor the map without entries takes memory. Contracts see the entries, in
/// the order of their keys.
pub struct SharedMap<K: Ord, V> {
    held: Option<Shared<Map<K, V>>>,
}

impl<K: Ord + Drop, V: Drop> Drop for SharedMap<K, V> {
    fn drop(self) {
        let SharedMap { held: _held } = self;
    }
}

impl<K: Ord, V> Model for SharedMap<K, V> {
    ghost use Rattle.std.specs.Prelude.{List};
    ghost use Rattle.std.specs.Coded.{coded_list, coded×};
    ghost use Rattle.cedar_data.specs.Maps.{entries_or_none};

    ghost Value = { List (K × V) };

    ghost coded = { coded_list (coded× K.code V.code) };

    ghost view = { λ m. entries_or_none m.held };
}

impl<K: Ord, V> SharedMap<K, V> {
    /// The map without entries, which takes no memory.
    pub fn new() -> SharedMap<K, V>
        ensures { result ≡ [] }
    {
        SharedMap { held: None }
    }

    /// The entries, in the order of their keys.
    pub fn as_slice(&self) -> &[(K, V)]
        ensures entries { result.now ≡ self.now }
        ensures len { length result.now ≡ length self.now }
        ensures sorted { IsStrictlySortedBy K.cmp (keys_of self.now) }
    {
        match &self.held {
            Some(map) => map.get().as_slice(),
            None => &[],
        }
    }
}

impl<K: Ord + Drop, V: Drop> SharedMap<K, V> {
    /// The map, to be shared by its copies.
    pub fn from_map(alloc: Global, map: Map<K, V>) -> Result<SharedMap<K, V>, AllocError>
        ensures { IfOk result (λ shared. shared ≡ map) }
    {
        if map.as_slice().is_empty() {
            return Ok(SharedMap::new());
        }
        let held = Some(Shared::new(alloc, map)?);
        Ok(SharedMap { held })
    }
}

impl<K: Ord, V: PartialEq> PartialEq for SharedMap<K, V> {
    ghost eq = { ⟦<Map<K, V> as PartialEq>⟧.eq };

    ghost laws = { lists_per (and_per (on_per (λ p. p.0) K.PartialEq.laws) (on_per (λ p. p.1) V.laws)) };

    fn eq(&self, other: &SharedMap<K, V>) -> bool {
        self.as_slice() == other.as_slice()
    }
}

impl<K: Ord, V: Eq> Eq for SharedMap<K, V> {
    ghost laws = { lists_equiv (and_equiv (on_equiv (λ p. p.0) K.Eq.laws) (on_equiv (λ p. p.1) V.Eq.laws)) };
}

impl<K: Ord, V: PartialOrd> PartialOrd for SharedMap<K, V> {
    ghost partial_cmp = { ⟦<Map<K, V> as PartialOrd>⟧.partial_cmp };

    ghost laws = { lists_po (then_po (on_po (λ p. p.0) K.PartialOrd.laws) (on_po (λ p. p.1) V.PartialOrd.laws)) };

    fn partial_cmp(&self, other: &SharedMap<K, V>) -> Option<Ordering> {
        self.as_slice().partial_cmp(other.as_slice())
    }
}

impl<K: Ord, V: Ord> Ord for SharedMap<K, V> {
    ghost cmp = { ⟦<Map<K, V> as Ord>⟧.cmp };

    ghost total = { lists_total (then_total (on_total (λ p. p.0) K.total) (on_total (λ p. p.1) V.total)) };

    ghost matches_partial_cmp = { lists_agrees (then_agrees (λ p q. K.matches_partial_cmp p.0 q.0)
        (λ p q. V.matches_partial_cmp p.1 q.1)) };

    ghost matches_eq = { let K' = K.cmp in
        let V' = V.cmp in
        lists_ties (λ p q. ordering_then (K' p.0 q.0) (V' p.1 q.1))
        (λ p q. both_tied _ _ (K' p.0 q.0) (V' p.1 q.1) (K.matches_eq p.0 q.0) (V.matches_eq p.1 q.1)) };

    fn cmp(&self, other: &SharedMap<K, V>) -> Ordering {
        self.as_slice().cmp(other.as_slice())
    }
}

impl<K: Ord + Hash, V: Hash> Hash for SharedMap<K, V> {
    ghost hash_input = { ⟦<Map<K, V> as Hash>⟧.hash_input };

    ghost respects_eq = { (items_Alike (and-Alike (on_Alike (λ p. p.0) (record { fed = K.respects_eq }))
        (on_Alike (λ p. p.1) (record { fed = V.respects_eq })))).fed };

    fn hash<H: Hasher>(&self, state: &mut H) {
        self.as_slice().hash(state);
    }
}

impl<K: Ord + Drop, V: Drop> CloneIn for SharedMap<K, V> {
    fn clone_in(&self, alloc: Global) -> Result<Self, AllocError> {
        match &self.held {
            Some(map) => {
                let held = Some(map.clone_in(alloc)?);
                Ok(SharedMap { held })
            }
            None => Ok(SharedMap::new()),
        }
    }
}
