ghost use Rattle.std.specs.Prelude.{◌≡◌, ℕ, List, OnOk, IfOk, IfSome, true, [], ◌∷◌, codes, map};
ghost use Rattle.cedar_data.specs.Rows.{joined_by};
ghost use Rattle.schema_build_text.specs.Adds.{Adds};
ghost use Rattle.cedar_identifiers.specs.Names.{components_of, name_text};
ghost use Rattle.cedar_names.specs.Definitions.{action_of};
ghost use Rattle.cedar_names.specs.CanonicalText.{list_text, parents_text, action_name_text};
ghost use Rattle.schema_build_types.specs.Content.{names_content, actions_in_order};
ghost use Rattle.schema_syntax_tokens.specs.Quotes.{quoted};
ghost use Rattle.schema_build_text.specs.Rows.{sorted_once};
ghost use Rattle.schema_build_text.specs.Readings.{first_name};

use crate::names::push_name;
use crate::pushing::{push, push_between, push_string};
use cedar_data::{NonEmpty, Shared};
use cedar_identifiers::{Eid, Name};
use cedar_names::EntityUID;
use std::alloc::{AllocError, Global};
use std::cmp::Ordering;
use std::collections::BTreeSet;

/// What is written in a list, in order.
pub trait Listed: Ord {
    /// The bytes of its text.
    ghost shown: { Self → List ℕ };

    /// Adds its text at the end.
    fn push_to(&self, text: &mut String) -> Result<(), AllocError>
        ensures { OnOk result (Adds text.old text.new (shown self.now)) };
}

impl Listed for Name {
    ghost shown = { λ n. name_text (components_of n.name) };

    fn push_to(&self, text: &mut String) -> Result<(), AllocError> {
        push_name(text, &self.name)
    }
}

impl Listed for EntityUID {
    ghost shown = { λ a. action_name_text (action_of a) };

    fn push_to(&self, text: &mut String) -> Result<(), AllocError> {
        push_name(text, &self.ty.name)?;
        push(text, "::")?;
        push_string(text, &self.eid.0)
    }
}

impl<T: Listed> Listed for Shared<T> {
    ghost shown = { T.shown };

    fn push_to(&self, text: &mut String) -> Result<(), AllocError> {
        self.get().push_to(text)
    }
}

// Whether each item is below the next.
fn is_rising<T: Ord>(items: &[T]) -> bool
    ensures { result ≡ true → sorted_once T.cmp items.now ≡ items.now }
{
    let mut at = items.len();
    while at > 1 {
        at -= 1;
        match items[at - 1].cmp(&items[at]) {
            Ordering::Less => {}
            Ordering::Equal | Ordering::Greater => return false,
        }
    }
    true
}

/// The items in order, each once.
pub fn sorted_set<'a, T: Ord>(alloc: Global, items: &'a [T]) -> Result<BTreeSet<&'a T>, AllocError>
    ensures { IfOk result (λ set. map (λ x. x.now) set.keys ≡ sorted_once T.cmp items.now) }
{
    let mut set = BTreeSet::new(alloc);
    let mut left = items.len();
    while left > 0 {
        left -= 1;
        set.insert(&items[left])?;
    }
    Ok(set)
}

// Adds the items, with `, ` between two.
fn push_row<T: Listed>(text: &mut String, items: &[T]) -> Result<(), AllocError>
    ensures { OnOk result (Adds text.old text.new (joined_by (codes ", ") (map T.shown items.now))) }
{
    let mut behind = false;
    for item in items {
        push_between(text, behind, ", ")?;
        item.push_to(text)?;
        behind = true;
    }
    Ok(())
}

// Adds the items of the set, with `, ` between two.
fn push_set<T: Listed>(text: &mut String, set: BTreeSet<&T>) -> Result<(), AllocError>
    ensures { OnOk result (Adds text.old text.new (joined_by (codes ", ") (map (λ x. T.shown x.now) set.entry.keys))) }
{
    let mut set = set;
    let mut behind = false;
    while let Some(item) = set.pop_first() {
        push_between(text, behind, ", ")?;
        item.push_to(text)?;
        behind = true;
    }
    Ok(())
}

// Adds the items in order, each once, with `, ` between two. They mostly stand so, and nothing is taken then.
fn push_in_order<T: Listed>(text: &mut String, alloc: Global, items: &[T]) -> Result<(), AllocError>
    ensures { OnOk result (Adds text.old text.new
        (joined_by (codes ", ") (map T.shown (sorted_once T.cmp items.now)))) }
{
    if is_rising(items) {
        push_row(text, items)
    } else {
        let set = sorted_set(alloc, items)?;
        push_set(text, set)
    }
}

// Adds ` in ` and the items in brackets, in order, each once; and nothing where there are none.
fn push_parents<T: Listed>(text: &mut String, alloc: Global, items: &[T]) -> Result<(), AllocError>
    ensures { OnOk result (Adds text.old text.new (parents_text (map T.shown (sorted_once T.cmp items.now)))) }
{
    if items.is_empty() {
        return Ok(());
    }
    push(text, " in [")?;
    push_in_order(text, alloc, items)?;
    push(text, "]")
}

/// Adds the names in order, each once, with `, ` between two.
pub fn push_names(text: &mut String, alloc: Global, names: &[Name]) -> Result<(), AllocError>
    ensures { OnOk result (Adds text.old text.new (joined_by (codes ", ") (map name_text (names_content names.now)))) }
{
    push_in_order(text, alloc, names)
}

/// Adds ` in ` and the names in brackets, in order, each once; and nothing where there are none.
pub fn push_name_parents(
    text: &mut String,
    alloc: Global,
    names: &[Shared<Name>],
) -> Result<(), AllocError>
    ensures { OnOk result (Adds text.old text.new (parents_text (map name_text (names_content names.now)))) }
{
    push_parents(text, alloc, names)
}

/// Adds ` in ` and the actions in brackets, in order, each once; and nothing where there are none.
pub fn push_action_parents(
    text: &mut String,
    alloc: Global,
    actions: &[Shared<EntityUID>],
) -> Result<(), AllocError>
    ensures { OnOk result (Adds text.old text.new
        (parents_text (map action_name_text (actions_in_order actions.now)))) }
{
    push_parents(text, alloc, actions)
}

/// Adds the ids in brackets, each as a string, as they stand.
pub fn push_choices(text: &mut String, choices: &NonEmpty<Eid>) -> Result<(), AllocError>
    ensures { OnOk result (Adds text.old text.new (list_text (map quoted (map (λ c. c.0) choices.now)))) }
{
    push(text, "[")?;
    let mut behind = false;
    for choice in choices.iter() {
        push_between(text, behind, ", ")?;
        push_string(text, &choice.0)?;
        behind = true;
    }
    push(text, "]")
}

// The name, where it is the only one.
fn only(names: &NonEmpty<Name>) -> Option<&Name>
    ensures { IfSome result (λ name. names.now ≡ name.now ∷ []) }
{
    let mut left = names.iter();
    match left.next() {
        None => None,
        Some(name) => match left.next() {
            None => Some(name),
            Some(_) => None,
        },
    }
}

// The names, lent.
fn lend(alloc: Global, names: &NonEmpty<Name>) -> Result<Vec<&Name>, AllocError>
    ensures { IfOk result (λ lent. map (λ n. n.now) lent.items ≡ names.now) }
{
    let mut lent = Vec::new(alloc);
    for name in names.iter() {
        lent.push(name)?;
    }
    Ok(lent)
}

// Adds the least of several names.
fn push_least(text: &mut String, alloc: Global, names: &NonEmpty<Name>) -> Result<(), AllocError>
    ensures { OnOk result (Adds text.old text.new (name_text (first_name (names_content names.now)))) }
{
    let lent = lend(alloc, names)?;
    let mut set = sorted_set(alloc, &lent)?;
    match set.pop_first() {
        Some(name) => push_name(text, &name.name),
        None => Ok(()),
    }
}

/// Adds the name of the entities' type; the least where there are several.
pub fn push_entity_name(
    text: &mut String,
    alloc: Global,
    names: &NonEmpty<Name>,
) -> Result<(), AllocError>
    ensures { OnOk result (Adds text.old text.new (name_text (first_name (names_content names.now)))) }
{
    match only(names) {
        Some(name) => push_name(text, &name.name),
        None => push_least(text, alloc, names),
    }
}
