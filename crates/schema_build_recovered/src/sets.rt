ghost use Rattle.std.specs.Prelude.{◌≡◌, IfOk, map};
ghost use Rattle.std.specs.List.{AllZip};
ghost use Rattle.cedar_identifiers.specs.Names.{components_of};
ghost use Rattle.cedar_names.specs.Definitions.{action_of};
ghost use Rattle.schema_build_types.specs.Content.{names_content, actions_in_order};
ghost use Rattle.schema_build_text.specs.Rows.{sorted_once};
ghost use Rattle.schema_build_recovered_types.specs.RecoveredTypes.{IsWritten};
ghost use Rattle.schema_build_recovered.specs.Recovered.{IsRecoveredParent, AreRecoveredParents};

use cedar_data::{CloneIn, List, Shared};
use cedar_identifiers::{Name, RawName};
use cedar_names::EntityUID;
use schema_build_recovered_types::names::written_name;
use schema_build_text::sorted_set;
use schema_json::ActionEntityUID;
use std::alloc::{AllocError, Global};
use std::collections::BTreeSet;

// The items of the set.
fn listed<T: Ord + Drop>(alloc: Global, set: BTreeSet<T>) -> Result<Vec<T>, AllocError>
    ensures { IfOk result (λ list. list.items ≡ set.keys) }
{
    let mut set = set;
    let mut list = Vec::with_capacity(alloc, set.len())?;
    while let Some(item) = set.pop_first() {
        list.push(item)?;
    }
    Ok(list)
}

/// The items in order, each once.
pub fn in_order<'a, T: Ord>(alloc: Global, items: &'a [T]) -> Result<Vec<&'a T>, AllocError>
    ensures { IfOk result (λ rising. map (λ x. x.now) rising.items ≡ sorted_once T.cmp items.now) }
{
    let set = sorted_set(alloc, items)?;
    listed(alloc, set)
}

// What is recovered by itself, as a name or an action that another item stands below.
trait Recover: Ord {
    type Out: Drop;

    // What it is recovered as.
    ghost is_recovered: { Self → Self.Out → Type 0 };

    fn recovered(&self, alloc: Global) -> Result<Self::Out, AllocError>
        ensures { IfOk result (is_recovered self.now) };
}

impl Recover for Name {
    type Out = RawName;

    ghost is_recovered = { λ n. IsWritten (components_of n.name) };

    fn recovered(&self, alloc: Global) -> Result<RawName, AllocError> {
        written_name(alloc, self)
    }
}

impl Recover for EntityUID {
    type Out = ActionEntityUID<RawName>;

    ghost is_recovered = { λ a. IsRecoveredParent (action_of a) };

    fn recovered(&self, alloc: Global) -> Result<ActionEntityUID<RawName>, AllocError> {
        let ty = written_name(alloc, &self.ty)?;
        let id = self.eid.0.clone_in(alloc)?;
        Ok(ActionEntityUID::with_type(ty, id))
    }
}

impl<T: Recover> Recover for Shared<T> {
    type Out = T::Out;

    ghost is_recovered = { T.is_recovered };

    fn recovered(&self, alloc: Global) -> Result<T::Out, AllocError> {
        self.get().recovered(alloc)
    }
}

// What the items are recovered as, in order, each once.
fn recovered_in_order<T: Recover>(alloc: Global, items: &[T]) -> Result<List<T::Out>, AllocError>
    ensures { IfOk result (AllZip T.is_recovered (sorted_once T.cmp items.now)) }
{
    let rising = in_order(alloc, items)?;
    let mut recovered = Vec::with_capacity(alloc, rising.len())?;
    for item in &rising {
        recovered.push(item.recovered(alloc)?)?;
    }
    Ok(List::from_vec(recovered))
}

/// The names as they are written, in order, each once.
pub fn written_names(alloc: Global, names: &[Name]) -> Result<List<RawName>, AllocError>
    ensures { IfOk result (λ written. AllZip IsWritten (names_content names.now) written) }
{
    recovered_in_order(alloc, names)
}

/// The shared names as they are written, in order, each once.
pub fn written_ancestors(alloc: Global, names: &[Shared<Name>]) -> Result<List<RawName>, AllocError>
    ensures { IfOk result (λ written. AllZip IsWritten (names_content names.now) written) }
{
    recovered_in_order(alloc, names)
}

/// The actions as parents, in order, each once; absent where there are none.
pub fn parents(
    alloc: Global,
    actions: &[Shared<EntityUID>],
) -> Result<Option<List<ActionEntityUID<RawName>>>, AllocError>
    ensures { IfOk result (AreRecoveredParents (actions_in_order actions.now)) }
{
    if actions.is_empty() {
        return Ok(None);
    }
    Ok(Some(recovered_in_order(alloc, actions)?))
}
