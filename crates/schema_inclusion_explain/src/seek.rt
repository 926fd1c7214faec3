ghost use Rattle.std.specs.Prelude.{◌≡◌, ◌≤◌, length, map, IfOk};
ghost use Rattle.std.specs.List.{find};
ghost use Rattle.std.specs.List.Sorted.{IsStrictlySortedBy};
ghost use Rattle.std.specs.Map.{keys_of};
ghost use Rattle.std.specs.Option.{option_copied, option_map};
ghost use Rattle.std.specs.Ordering.{is_eq};
ghost use Rattle.cedar_identifiers.specs.Names.{components_of};
ghost use Rattle.cedar_names.specs.Definitions.{same_name, action_of};
ghost use Rattle.cedar_names.specs.Orders.{names_in_order, uids_in_order};
ghost use Rattle.schema_inclusion_values.specs.Lost.{same_key};
ghost use Rattle.schema_inclusion_values.specs.Whole.{action_name};
ghost use Rattle.schema_inclusion_check.specs.Below.{AreBelow};
ghost use Rattle.schema_inclusion_check.specs.Raw.{raw_entity, raw_action};

use cedar_identifiers::Name;
use cedar_names::EntityUID;
use schema_build_types::{ActionEntry, EntityTypeEntry, Keyed};
use std::cmp::Ordering;

// Where the entries begin whose keys are not less than this one, among entries whose keys rise, found by halving.
fn first_from<E: Keyed>(entries: &[E], key: &E::Key) -> usize
    requires { IsStrictlySortedBy E.Key.cmp (map (λ e. (E.pair e).0) entries.now) }
    ensures below { AreBelow E.Key.cmp (λ e. (E.pair e).0) entries.now result key.now }
    ensures within { result ≤ length entries.now }
{
    let mut low = 0;
    let mut high = entries.len();
    while low < high {
        let middle = low + (high - low) / 2;
        match entries[middle].key().cmp(key) {
            Ordering::Less => low = middle + 1,
            Ordering::Equal => high = middle,
            Ordering::Greater => high = middle,
        }
    }
    low
}

// The entry of the key among entries whose keys rise, from a place on before which all keys are less.
fn seek<'a, E: Keyed>(entries: &'a [E], from: usize, key: &E::Key) -> Option<&'a E>
    requires sorted { IsStrictlySortedBy E.Key.cmp (map (λ e. (E.pair e).0) entries.now) }
    requires below { AreBelow E.Key.cmp (λ e. (E.pair e).0) entries.now from key.now }
    requires within { from ≤ length entries.now }
    ensures { option_copied result ≡ find (λ e. is_eq (E.Key.cmp (E.pair e).0 key.now)) entries.now }
{
    let mut at = from;
    while at < entries.len() {
        match entries[at].key().cmp(key) {
            Ordering::Less => at += 1,
            Ordering::Equal => return Some(&entries[at]),
            Ordering::Greater => return None,
        }
    }
    None
}

/// The entity type of this name, among entity types in order.
pub fn find_entity<'a>(entities: &'a [EntityTypeEntry], name: &Name) -> Option<&'a EntityTypeEntry>
    requires { IsStrictlySortedBy (λ a b. names_in_order a.name b.name) (keys_of entities.now) }
    ensures { option_map raw_entity (option_copied result)
        ≡ find (λ e. same_name e.name (components_of name.now.name)) (map raw_entity entities.now) }
{
    let from = first_from(entities, name);
    seek(entities, from, name)
}

/// The action of this type and id, among actions in order.
pub fn find_action<'a>(actions: &'a [ActionEntry], uid: &EntityUID) -> Option<&'a ActionEntry>
    requires { IsStrictlySortedBy uids_in_order (keys_of actions.now) }
    ensures { option_map raw_action (option_copied result)
        ≡ find (λ a. same_key (action_name a) (action_of uid.now)) (map raw_action actions.now) }
{
    let from = first_from(actions, uid);
    seek(actions, from, uid)
}
