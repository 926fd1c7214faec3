ghost use Rattle.std.specs.Prelude.{◌≡◌, ◌++◌, map, IfOk, OnOk, IfErr};
ghost use Rattle.std.specs.List.{flat_map};
ghost use Rattle.schema_resolve_definitions.specs.Declarations.{declared};
ghost use Rattle.schema_resolve_definitions.specs.Tests.{tests_of};
ghost use Rattle.schema_build_checks.specs.DeclaredAt.{at_of, hiding_action, hiding_actions_in};
ghost use Rattle.schema_build_checks.specs.DeclaredTwice.{IsPlainAction, ActionHides};
ghost use Rattle.schema_build_checks.specs.Rows.{Never, OrMemory};

use crate::least::least;
use cedar_data::{CloneIn, Text};
use cedar_identifiers::{Eid, Name, RawName};
use cedar_names::EntityUID;
use schema_build_errors::{ActionShadowingError, Refusal, SchemaError};
use schema_json::action_uid::action_name;
use schema_json::{ActionType, Fragment, NamespaceDefinition};
use schema_resolve_definitions::declared::action_type;
use schema_resolve_lookup::DeclaredDefs;
use std::alloc::{AllocError, Global};

/// Refuses a fragment in which an action of a named namespace has the id of an action of the empty one, and names the
/// least of them. The definitions are what the fragment declares.
pub fn check_action_shadowing(
    alloc: Global,
    fragment: &Fragment<RawName>,
    defs: &DeclaredDefs<'_>,
) -> Result<(), Refusal>
    requires { tests_of defs.now ≡ tests_of (declared fragment.now) }
    ensures ok { OnOk result (Never (ActionHides fragment.now)) }
    ensures err { IfErr result (OrMemory (ActionHides fragment.now)) }
{
    let mut found = Vec::new(alloc);
    for (ns, definition) in fragment.0.as_slice() {
        push_hiding_actions(alloc, &mut found, defs, ns, definition)?;
    }
    match least(found) {
        Some(shadowing_def) => {
            let shadowed_def = plain_action(alloc, &shadowing_def.eid.0)?;
            let error = ActionShadowingError {
                shadowed_def,
                shadowing_def,
            };
            Err(Refusal::new(alloc, SchemaError::ActionShadowing(error))?)
        }
        None => Ok(()),
    }
}

// Adds the actions of a named namespace that have the id of an action of the empty one.
fn push_hiding_actions(
    alloc: Global,
    found: &mut Vec<EntityUID>,
    defs: &DeclaredDefs<'_>,
    ns: &Option<Name>,
    definition: &NamespaceDefinition<RawName>,
) -> Result<(), AllocError>
    ensures { OnOk result (map at_of found.new.items ≡ map at_of found.old.items
        ++ hiding_actions_in (tests_of defs.now) (ns.now, definition.now)) }
{
    match ns {
        None => Ok(()),
        Some(_) => push_hiding(alloc, found, defs, ns, definition.actions.as_slice()),
    }
}

// Adds the actions that have the id of an action of the empty namespace.
fn push_hiding(
    alloc: Global,
    found: &mut Vec<EntityUID>,
    defs: &DeclaredDefs<'_>,
    ns: &Option<Name>,
    actions: &[(Text, ActionType<RawName>)],
) -> Result<(), AllocError>
    ensures { OnOk result (map at_of found.new.items ≡ map at_of found.old.items
        ++ flat_map (hiding_action (tests_of defs.now) ns.now) actions.now) }
{
    let plain = action_name(alloc)?;
    for (id, action) in actions {
        if defs.is_defined_as_action_named(&plain, id) {
            let ty = action_type(alloc, ns)?;
            let eid = Eid(id.clone_in(alloc)?);
            let loc = action.loc;
            found.push(EntityUID { ty, eid, loc })?;
        }
    }
    Ok(())
}

// The action of the empty namespace with this id, without a place.
fn plain_action(alloc: Global, id: &Text) -> Result<EntityUID, AllocError>
    ensures { IfOk result (λ uid. IsPlainAction id.now uid) }
{
    let ty = action_type(alloc, &None)?;
    let eid = Eid(id.clone_in(alloc)?);
    Ok(EntityUID { ty, eid, loc: None })
}
