ghost use Rattle.std.specs.Prelude.{◌≡◌, [], Some, IfSome};
ghost use Rattle.std.specs.Option.{option_copied};
ghost use Rattle.std.specs.Cmp.Lexicographic.{slice_cmp};
ghost use Rattle.cedar_names.specs.Orders.{id_text_order};
ghost use Rattle.schema_resolve_lookup.specs.Sought.{ids_before, namespace_ids, words_before, passes_in, passes};

use crate::near::Recent;
use crate::sought::Before;
use cedar_identifiers::{Name, RawName};
use schema_json::{Fragment, NamespaceDefinition};
use std::cell::Cell;
use std::cmp::Ordering;

// A fragment whose namespaces are looked up, where the named one stands that was found last, and where the common type
// and the entity types that were found last stand in their namespaces.
#[derive(Drop)]
pub(crate) struct Searched<'f> {
    pub(crate) fragment: &'f Fragment<RawName>,
    recent: Cell<usize>,
    pub(crate) recent_common: Cell<usize>,
    pub(crate) recent_entities: Recent,
}

impl<'f> Searched<'f> {
    pub(crate) fn new(fragment: &'f Fragment<RawName>) -> Searched<'f>
        ensures { result.fragment.now ≡ fragment.now }
    {
        Searched {
            fragment,
            recent: Cell::new(0),
            recent_common: Cell::new(0),
            recent_entities: Recent::new(),
        }
    }
}

// The namespace of these words: the one that was found last or the one behind it, or else found by halving.
pub(crate) fn namespace_of<'a>(
    searched: &Searched<'a>,
    sought: Option<Before<'_>>,
) -> Option<&'a NamespaceDefinition<RawName>>
    ensures { (test : _) → passes_in searched.now.fragment.now (words_before sought.entry) test
        ≡ passes (option_copied result) test }
{
    if sought.is_none() {
        return outer_namespace(searched);
    }
    if let Some(definition) = found_near(searched, sought) {
        return Some(definition);
    }
    let entries = searched.fragment.0.as_slice();
    match entries.binary_search_by(|entry| compare(&entry.0, sought)) {
        Ok(at) => {
            searched.recent.set(at);
            Some(&entries[at].1)
        }
        Err(_) => None,
    }
}

// The namespace without a name, which stands before all others.
fn outer_namespace<'a>(searched: &Searched<'a>) -> Option<&'a NamespaceDefinition<RawName>>
    ensures { (test : _) → passes_in searched.now.fragment.now [] test ≡ passes (option_copied result) test }
{
    match searched.fragment.0.as_slice() {
        [] => None,
        [first, ..] => match first.0 {
            None => Some(&first.1),
            Some(_) => None,
        },
    }
}

// The namespace of these words, where it is the one that was found last or the one behind it: most are looked up in
// order.
fn found_near<'a>(
    searched: &Searched<'a>,
    sought: Option<Before<'_>>,
) -> Option<&'a NamespaceDefinition<RawName>>
    ensures { IfSome result (λ definition. (test : _)
        → passes_in searched.now.fragment.now (words_before sought.entry) test ≡ test definition.now) }
{
    let recent = searched.recent.get();
    if let Some(definition) = found_at(searched, recent, sought) {
        return Some(definition);
    }
    let next = recent.saturating_add(1);
    let definition = found_at(searched, next, sought)?;
    searched.recent.set(next);
    Some(definition)
}

// The namespace at the place, where it has these words.
fn found_at<'a>(
    searched: &Searched<'a>,
    at: usize,
    sought: Option<Before<'_>>,
) -> Option<&'a NamespaceDefinition<RawName>>
    ensures { IfSome result (λ definition. (test : _)
        → passes_in searched.now.fragment.now (words_before sought.entry) test ≡ test definition.now) }
{
    let entries = searched.fragment.0.as_slice();
    if at >= entries.len() {
        return None;
    }
    let entry = &entries[at];
    match compare(&entry.0, sought) {
        Ordering::Equal => Some(&entry.1),
        _ => None,
    }
}

// How the namespace stands to the one that is sought.
fn compare(ns: &Option<Name>, sought: Option<Before<'_>>) -> Ordering
    ensures { result ≡ slice_cmp id_text_order (namespace_ids ns.now) (ids_before sought.entry) }
{
    match ns {
        None => match sought {
            None => Ordering::Equal,
            Some(_) => Ordering::Less,
        },
        Some(ns) => match sought {
            None => Ordering::Greater,
            Some(before) => compare_named(ns, before),
        },
    }
}

// How the namespace stands to these words: by the first of each, and then by the others in turn.
fn compare_named(ns: &Name, before: Before<'_>) -> Ordering
    ensures { result ≡ slice_cmp id_text_order (namespace_ids (Some ns.now)) (ids_before (Some before.entry)) }
{
    match ns.name.first.cmp(before.first) {
        Ordering::Equal => ns.name.others.as_slice().cmp(before.others),
        unequal => unequal,
    }
}
