ghost use Rattle.std.specs.Prelude.{◌≡◌, [], ◌∷◌, ◌++◌};
ghost use Rattle.std.specs.Cmp.Lexicographic.{slice_cmp};
ghost use Rattle.cedar_names.specs.Orders.{id_text_order, ids_of, ids_behind, names_in_order, keys_in_order};
ghost use Rattle.cedar_names.specs.Orders.{action_key, uids_in_order, ids_total, keys_total, is_below, is_above};

use crate::entity_uid::EntityUID;
use crate::halving::Sought;
use cedar_data::Text;
use cedar_identifiers::{Id, InternalName};
use std::cmp::Ordering;

// A name.
#[derive(Drop)]
pub(crate) struct Named<'a> {
    pub(crate) name: &'a InternalName,
}

impl<'a> Sought<InternalName> for Named<'a> {
    ghost order = { names_in_order };

    ghost place = { λ s x. slice_cmp id_text_order (ids_of x) (ids_of s.name.now) };

    ghost below = { λ s. is_below ids_total ids_of (ids_of s.name.now) };

    ghost above = { λ s. is_above ids_total ids_of (ids_of s.name.now) };

    fn compare(&self, item: &InternalName) -> Ordering {
        item.cmp(self.name)
    }
}

// The name with this last word behind a namespace.
#[derive(Drop)]
pub(crate) struct Behind<'a> {
    pub(crate) namespace: &'a InternalName,
    pub(crate) last: &'a Id,
}

impl<'a> Sought<InternalName> for Behind<'a> {
    ghost order = { names_in_order };

    ghost place = { λ s x. slice_cmp id_text_order (ids_of x) (ids_behind s.namespace.now s.last.now) };

    ghost below = { λ s. is_below ids_total ids_of (ids_behind s.namespace.now s.last.now) };

    ghost above = { λ s. is_above ids_total ids_of (ids_behind s.namespace.now s.last.now) };

    fn compare(&self, item: &InternalName) -> Ordering {
        compare_behind(item, self.namespace, self.last)
    }
}

// The action of this type with this id.
#[derive(Drop)]
pub(crate) struct ActionNamed<'a> {
    pub(crate) ty: &'a InternalName,
    pub(crate) id: &'a Text,
}

impl<'a> Sought<EntityUID> for ActionNamed<'a> {
    ghost order = { uids_in_order };

    ghost place = { λ s x. keys_in_order (action_key x) (ids_of s.ty.now, s.id.now) };

    ghost below = { λ s. is_below keys_total action_key (ids_of s.ty.now, s.id.now) };

    ghost above = { λ s. is_above keys_total action_key (ids_of s.ty.now, s.id.now) };

    fn compare(&self, item: &EntityUID) -> Ordering {
        match item.ty.name.cmp(self.ty) {
            Ordering::Less => Ordering::Less,
            Ordering::Greater => Ordering::Greater,
            Ordering::Equal => item.eid.0.cmp(self.id),
        }
    }
}

// The action with this id whose type has this last word behind a namespace.
#[derive(Drop)]
pub(crate) struct ActionBehind<'a> {
    pub(crate) namespace: &'a InternalName,
    pub(crate) last: &'a Id,
    pub(crate) id: &'a Text,
}

impl<'a> Sought<EntityUID> for ActionBehind<'a> {
    ghost order = { uids_in_order };

    ghost place = { λ s x. keys_in_order (action_key x) (ids_behind s.namespace.now s.last.now, s.id.now) };

    ghost below = { λ s. is_below keys_total action_key (ids_behind s.namespace.now s.last.now, s.id.now) };

    ghost above = { λ s. is_above keys_total action_key (ids_behind s.namespace.now s.last.now, s.id.now) };

    fn compare(&self, item: &EntityUID) -> Ordering {
        match compare_behind(&item.ty.name, self.namespace, self.last) {
            Ordering::Less => Ordering::Less,
            Ordering::Greater => Ordering::Greater,
            Ordering::Equal => item.eid.0.cmp(self.id),
        }
    }
}

/// How the name stands to the one with this last word behind a namespace, which is not built.
pub fn compare_behind(name: &InternalName, namespace: &InternalName, last: &Id) -> Ordering
    ensures { result ≡ slice_cmp id_text_order (ids_of name.now) (ids_behind namespace.now last.now) }
{
    match name.first.cmp(&namespace.first) {
        Ordering::Less => Ordering::Less,
        Ordering::Greater => Ordering::Greater,
        Ordering::Equal => {
            compare_rest(name.others.as_slice(), namespace.others.as_slice(), last)
        }
    }
}

// How the words stand to those of a namespace with one behind them.
fn compare_rest(words: &[Id], namespace: &[Id], last: &Id) -> Ordering
    ensures { result ≡ slice_cmp id_text_order words.now (namespace.now ++ last.now ∷ []) }
{
    for (at, part) in namespace.iter().enumerate() {
        match words.get(at) {
            None => return Ordering::Less,
            Some(own) => match own.cmp(part) {
                Ordering::Less => return Ordering::Less,
                Ordering::Greater => return Ordering::Greater,
                Ordering::Equal => {}
            },
        }
    }
    let (_, rest) = words.split_at(namespace.len());
    compare_last(rest, last)
}

// How the words stand to this one alone.
fn compare_last(words: &[Id], last: &Id) -> Ordering
    ensures { result ≡ slice_cmp id_text_order words.now (last.now ∷ []) }
{
    match words {
        [] => Ordering::Less,
        [own] => own.cmp(last),
        [own, ..] => match own.cmp(last) {
            Ordering::Less => Ordering::Less,
            Ordering::Greater => Ordering::Greater,
            Ordering::Equal => Ordering::Greater,
        },
    }
}
