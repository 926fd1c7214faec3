ghost use Rattle.std.specs.Prelude.{◌≡◌, ◌≢◌, true, ◌+◌, ◌-◌, ◌*◌, ◌^◌, ◌≤◌, ◌<◌, [], ◌∷◌, ◌++◌, ℕ, List, map, length};
ghost use Rattle.std.specs.Prelude.{IfOk, OnOk, OnErr};
ghost use Rattle.std.specs.List.Sorted.{IsStrictlySortedBy};
ghost use Rattle.cedar_identifiers.specs.Names.{components_of};
ghost use Rattle.cedar_names.specs.Definitions.{among, among_actions, action_of, AddsName, AddsNames, AddsAction};
ghost use Rattle.cedar_names.specs.Definitions.{AddsTypes};
ghost use Rattle.cedar_names.specs.Orders.{names_in_order, uids_in_order};

use crate::entity_uid::EntityUID;
use crate::halving::{find, is_there};
use crate::rising::sort_once;
use crate::sought::{ActionBehind, ActionNamed, Behind, Named};
use crate::steps::{Steps, Uncounted};
use cedar_data::{CloneIn, Text};
use cedar_identifiers::{Id, InternalName};
use std::alloc::{AllocError, Global};
use std::cmp::Ordering;
use std::marker::Model;
use std::sync::ledger::Ledger;

/// What is defined: names of common types, names of entity types, and actions. Contracts see three sets, without
/// places.
pub struct AllDefs {
    common_defs: Vec<InternalName>,
    entity_defs: Vec<InternalName>,
    action_defs: Vec<EntityUID>,
    alloc: Global,
}

impl Drop for AllDefs {
    fn drop(self) {
        let AllDefs {
            common_defs: _common_defs,
            entity_defs: _entity_defs,
            action_defs: _action_defs,
            alloc: _alloc,
        } = self;
    }
}

impl Model for AllDefs {
    ghost use Rattle.std.specs.Prelude.{map};
    ghost use Rattle.std.specs.List.Sorted.{IsStrictlySortedBy};
    ghost use Rattle.cedar_identifiers.specs.Names.{components_of};
    ghost use Rattle.cedar_names.specs.Definitions.{Definitions, action_of};
    ghost use Rattle.cedar_names.specs.Orders.{names_in_order, uids_in_order};

    ghost Value = { Definitions };

    ghost view = { λ d. record {
      commons = map components_of d.common_defs.items;
      entities = map components_of d.entity_defs.items;
      actions = map action_of d.action_defs.items;
    } };

    ghost invariant = { λ d. IsStrictlySortedBy names_in_order d.common_defs.items
        × (IsStrictlySortedBy names_in_order d.entity_defs.items
        × IsStrictlySortedBy uids_in_order d.action_defs.items) };
}

impl AllDefs {
    /// Nothing is defined. It takes no memory.
    pub fn new(alloc: Global) -> AllDefs
        ensures { result ≡ record { commons = []; entities = []; actions = [] } }
    {
        AllDefs {
            common_defs: Vec::new(alloc),
            entity_defs: Vec::new(alloc),
            action_defs: Vec::new(alloc),
            alloc,
        }
    }

    /// These common types, entity types and actions are defined, by one sort of each.
    pub fn from_names(
        alloc: Global,
        mut commons: Vec<InternalName>,
        mut entities: Vec<InternalName>,
        mut actions: Vec<EntityUID>,
    ) -> AllDefs
        ensures commons { (n : List (List ℕ)) → among result.commons n ≡ among (map components_of commons.items) n }
        ensures entities { (n : List (List ℕ)) → among result.entities n ≡ among (map components_of entities.items) n }
        ensures actions { (a : List (List ℕ) × List ℕ) → among_actions result.actions a
            ≡ among_actions (map action_of actions.items) a }
    {
        sort_once(&mut commons);
        sort_once(&mut entities);
        sort_once(&mut actions);
        AllDefs {
            common_defs: commons,
            entity_defs: entities,
            action_defs: actions,
            alloc,
        }
    }

    /// Whether a common type of this name is defined.
    pub fn is_defined_as_common(&self, name: &InternalName) -> bool
        ensures { result ≡ among self.now.commons (components_of name.now) }
    {
        is_there(
            self.common_defs.as_slice(),
            &Named { name },
            &mut Uncounted {},
        )
    }

    /// Whether an entity type of this name is defined.
    pub fn is_defined_as_entity(&self, name: &InternalName) -> bool
        ensures { result ≡ among self.now.entities (components_of name.now) }
    {
        is_there(
            self.entity_defs.as_slice(),
            &Named { name },
            &mut Uncounted {},
        )
    }

    /// Whether the action is defined.
    pub fn is_defined_as_action(&self, uid: &EntityUID) -> bool
        ensures { result ≡ among_actions self.now.actions (action_of uid.now) }
    {
        self.is_defined_as_action_named(&uid.ty.name, &uid.eid.0)
    }

    /// Whether a common type of this name is defined. A step is one comparison with a name.
    pub fn common_counted<L: Ledger>(&self, name: &InternalName, steps: &mut Steps<L>) -> bool
        ensures answer { result ≡ among self.now.commons (components_of name.now) }
        ensures counted { steps.old ≤ steps.new }
        ensures cost { 2 ^ (steps.new - steps.old) ≤ 2 * length self.now.commons + 1 }
        ensures some { self.now.commons ≢ [] → steps.old < steps.new }
    {
        is_there(self.common_defs.as_slice(), &Named { name }, steps)
    }

    /// Whether an entity type of this name is defined. A step is one comparison with a name.
    pub fn entity_counted<L: Ledger>(&self, name: &InternalName, steps: &mut Steps<L>) -> bool
        ensures answer { result ≡ among self.now.entities (components_of name.now) }
        ensures counted { steps.old ≤ steps.new }
        ensures cost { 2 ^ (steps.new - steps.old) ≤ 2 * length self.now.entities + 1 }
        ensures some { self.now.entities ≢ [] → steps.old < steps.new }
    {
        is_there(self.entity_defs.as_slice(), &Named { name }, steps)
    }

    /// Whether the action is defined. A step is one comparison with an action.
    pub fn action_counted<L: Ledger>(&self, uid: &EntityUID, steps: &mut Steps<L>) -> bool
        ensures answer { result ≡ among_actions self.now.actions (action_of uid.now) }
        ensures counted { steps.old ≤ steps.new }
        ensures cost { 2 ^ (steps.new - steps.old) ≤ 2 * length self.now.actions + 1 }
        ensures some { self.now.actions ≢ [] → steps.old < steps.new }
    {
        let sought = ActionNamed {
            ty: &uid.ty.name,
            id: &uid.eid.0,
        };
        is_there(self.action_defs.as_slice(), &sought, steps)
    }

    /// Whether a common type with this last word is defined behind the namespace. No name is built.
    pub fn is_defined_as_common_behind(&self, namespace: &InternalName, last: &Id) -> bool
        ensures { result ≡ among self.now.commons (components_of namespace.now ++ last.now.text ∷ []) }
    {
        is_there(
            self.common_defs.as_slice(),
            &Behind { namespace, last },
            &mut Uncounted {},
        )
    }

    /// Whether an entity type with this last word is defined behind the namespace. No name is built.
    pub fn is_defined_as_entity_behind(&self, namespace: &InternalName, last: &Id) -> bool
        ensures { result ≡ among self.now.entities (components_of namespace.now ++ last.now.text ∷ []) }
    {
        is_there(
            self.entity_defs.as_slice(),
            &Behind { namespace, last },
            &mut Uncounted {},
        )
    }

    /// Whether the action with this type and this id is defined. It is not built.
    pub fn is_defined_as_action_named(&self, ty: &InternalName, id: &Text) -> bool
        ensures { result ≡ among_actions self.now.actions (components_of ty.now, id.now) }
    {
        is_there(
            self.action_defs.as_slice(),
            &ActionNamed { ty, id },
            &mut Uncounted {},
        )
    }

    /// Whether the action with this id is defined whose type has this last word behind the namespace. It is not built.
    pub fn is_defined_as_action_behind(
        &self,
        namespace: &InternalName,
        last: &Id,
        id: &Text,
    ) -> bool
        ensures { result ≡ among_actions self.now.actions (components_of namespace.now ++ last.now.text ∷ [], id.now) }
    {
        let sought = ActionBehind {
            namespace,
            last,
            id,
        };
        is_there(self.action_defs.as_slice(), &sought, &mut Uncounted {})
    }

    /// Defines a common type of this name, and changes nothing when out of memory.
    pub fn mark_as_defined_as_common_type(&mut self, name: InternalName) -> Result<(), AllocError>
        ensures commons { OnOk result (AddsName self.old.commons self.new.commons (components_of name)) }
        ensures entities { OnOk result (self.new.entities ≡ self.old.entities) }
        ensures actions { OnOk result (self.new.actions ≡ self.old.actions) }
        ensures err { OnErr result (self.new ≡ self.old) }
    {
        add_name(&mut self.common_defs, name)
    }

    /// Defines common types of these names, and changes nothing when out of memory.
    pub fn mark_all_as_common_types(&mut self, names: Vec<InternalName>) -> Result<(), AllocError>
        ensures commons { OnOk result (AddsNames self.old.commons self.new.commons (map components_of names.items)) }
        ensures entities { OnOk result (self.new.entities ≡ self.old.entities) }
        ensures actions { OnOk result (self.new.actions ≡ self.old.actions) }
        ensures err { OnErr result (self.new ≡ self.old) }
    {
        add_names(&mut self.common_defs, names)
    }

    /// Defines an entity type of this name, and changes nothing when out of memory.
    pub fn mark_as_defined_as_entity_type(&mut self, name: InternalName) -> Result<(), AllocError>
        ensures commons { OnOk result (self.new.commons ≡ self.old.commons) }
        ensures entities { OnOk result (AddsName self.old.entities self.new.entities (components_of name)) }
        ensures actions { OnOk result (self.new.actions ≡ self.old.actions) }
        ensures err { OnErr result (self.new ≡ self.old) }
    {
        add_name(&mut self.entity_defs, name)
    }

    /// Defines the action, and changes nothing when out of memory.
    pub fn mark_as_defined_as_action(&mut self, uid: EntityUID) -> Result<(), AllocError>
        ensures commons { OnOk result (self.new.commons ≡ self.old.commons) }
        ensures entities { OnOk result (self.new.entities ≡ self.old.entities) }
        ensures actions { OnOk result (AddsAction self.old.actions self.new.actions (action_of uid)) }
        ensures err { OnErr result (self.new ≡ self.old) }
    {
        add_action(&mut self.action_defs, uid)
    }

    /// Defines the type of each action as an entity type, and changes nothing when out of memory.
    pub fn add_action_entity_types(&mut self) -> Result<(), AllocError>
        ensures commons { OnOk result (self.new.commons ≡ self.old.commons) }
        ensures entities { OnOk result (AddsTypes self.old.entities self.new.entities self.old.actions) }
        ensures actions { OnOk result (self.new.actions ≡ self.old.actions) }
        ensures err { OnErr result (self.new ≡ self.old) }
    {
        let types = types_of(self.alloc, self.action_defs.as_slice())?;
        add_names(&mut self.entity_defs, types)?;
        Ok(())
    }
}

// Adds the name where it belongs, unless it is there.
fn add_name(names: &mut Vec<InternalName>, name: InternalName) -> Result<(), AllocError>
    requires { IsStrictlySortedBy names_in_order names.old.items }
    ensures sorted { IsStrictlySortedBy names_in_order names.new.items }
    ensures added { OnOk result (AddsName (map components_of names.old.items) (map components_of names.new.items)
        (components_of name)) }
    ensures err { OnErr result (names.new.items ≡ names.old.items) }
{
    match find(names.as_slice(), &Named { name: &name }, &mut Uncounted {}) {
        Ok(_) => Ok(()),
        Err(at) => {
            names.insert(at, name)?;
            Ok(())
        }
    }
}

// Adds the names, by one sort.
fn add_names(names: &mut Vec<InternalName>, mut more: Vec<InternalName>) -> Result<(), AllocError>
    requires { IsStrictlySortedBy names_in_order names.old.items }
    ensures sorted { IsStrictlySortedBy names_in_order names.new.items }
    ensures added { OnOk result (AddsNames (map components_of names.old.items) (map components_of names.new.items)
        (map components_of more.items)) }
    ensures err { OnErr result (names.new.items ≡ names.old.items) }
{
    names.append(&mut more)?;
    sort_once(names);
    Ok(())
}

// Adds the action where it belongs, unless it is there.
fn add_action(actions: &mut Vec<EntityUID>, uid: EntityUID) -> Result<(), AllocError>
    requires { IsStrictlySortedBy uids_in_order actions.old.items }
    ensures sorted { IsStrictlySortedBy uids_in_order actions.new.items }
    ensures added { OnOk result (AddsAction (map action_of actions.old.items) (map action_of actions.new.items)
        (action_of uid)) }
    ensures err { OnErr result (actions.new.items ≡ actions.old.items) }
{
    let sought = ActionNamed {
        ty: &uid.ty.name,
        id: &uid.eid.0,
    };
    match find(actions.as_slice(), &sought, &mut Uncounted {}) {
        Ok(_) => Ok(()),
        Err(at) => {
            actions.insert(at, uid)?;
            Ok(())
        }
    }
}

// The types of the actions, of neighbours with the same type once.
fn types_of(alloc: Global, actions: &[EntityUID]) -> Result<Vec<InternalName>, AllocError>
    ensures { IfOk result (λ types. (n : List (List ℕ)) → among (map components_of types.items) n
        ≡ among (map (λ a. a.0) (map action_of actions.now)) n) }
{
    let mut types = Vec::new(alloc);
    for action in actions {
        add_type(alloc, &mut types, &action.ty.name)?;
    }
    Ok(types)
}

// Adds the type, unless it is the last of these.
fn add_type(
    alloc: Global,
    types: &mut Vec<InternalName>,
    ty: &InternalName,
) -> Result<(), AllocError>
    ensures { OnOk result (AddsName (map components_of types.old.items) (map components_of types.new.items)
        (components_of ty.now)) }
{
    if ends_with(types.as_slice(), ty) {
        return Ok(());
    }
    types.push(ty.clone_in(alloc)?)?;
    Ok(())
}

// Whether the type is the last of these.
fn ends_with(types: &[InternalName], ty: &InternalName) -> bool
    ensures { result ≡ true → among (map components_of types.now) (components_of ty.now) ≡ true }
{
    match types {
        [] => false,
        [.., last] => match last.cmp(ty) {
            Ordering::Less | Ordering::Greater => false,
            Ordering::Equal => true,
        },
    }
}

// Copies of the items, in order.
fn clone_items<T: CloneIn>(alloc: Global, items: &[T]) -> Result<Vec<T>, AllocError>
    ensures { IfOk result (λ copy. copy.items ≡ items.now) }
{
    let mut copy = Vec::new(alloc);
    for item in items {
        copy.push(item.clone_in(alloc)?)?;
    }
    Ok(copy)
}

impl CloneIn for AllDefs {
    fn clone_in(&self, alloc: Global) -> Result<Self, AllocError> {
        Ok(AllDefs {
            common_defs: clone_items(alloc, self.common_defs.as_slice())?,
            entity_defs: clone_items(alloc, self.entity_defs.as_slice())?,
            action_defs: clone_items(alloc, self.action_defs.as_slice())?,
            alloc,
        })
    }
}
