ghost use Rattle.std.specs.Prelude.{◌≡◌, ◌++◌, OnOk, IfErr};
ghost use Rattle.std.specs.List.{flat_map};
ghost use Rattle.schema_build_checks.specs.DeclaredAt.{called_action};
ghost use Rattle.schema_build_checks.specs.DeclaredTwice.{ActionTypeDeclared};
ghost use Rattle.schema_build_checks.specs.Rows.{Never, OrMemory};

use crate::declared_at::{declared_at, is_action_word};
use crate::least::least;
use cedar_identifiers::{InternalName, Name, RawName, UnreservedId};
use schema_build_errors::{ActionEntityTypeDeclaredError, Refusal, SchemaError};
use schema_json::{EntityType, Fragment};
use std::alloc::{AllocError, Global};

/// Refuses a fragment that declares an entity type with the name `Action`, at the place of the least of them.
pub fn check_action_types(alloc: Global, fragment: &Fragment<RawName>) -> Result<(), Refusal>
    ensures ok { OnOk result (Never (ActionTypeDeclared fragment.now)) }
    ensures err { IfErr result (OrMemory (ActionTypeDeclared fragment.now)) }
{
    let mut found = Vec::new(alloc);
    for (ns, definition) in fragment.0.as_slice() {
        push_called_actions(alloc, &mut found, ns, definition.entity_types.as_slice())?;
    }
    match least(found) {
        Some(name) => {
            let error = ActionEntityTypeDeclaredError { loc: name.loc };
            Err(Refusal::new(alloc, SchemaError::ActionEntityTypeDeclared(error))?)
        }
        None => Ok(()),
    }
}

// Adds the entity types that are called `Action`.
fn push_called_actions(
    alloc: Global,
    found: &mut Vec<InternalName>,
    ns: &Option<Name>,
    entities: &[(UnreservedId, EntityType<RawName>)],
) -> Result<(), AllocError>
    ensures { OnOk result (found.new.items ≡ found.old.items ++ flat_map (called_action ns.now) entities.now) }
{
    for (id, entity) in entities {
        if is_action_word(id.id.as_str()) {
            found.push(declared_at(alloc, ns, &id.id, entity.loc)?)?;
        }
    }
    Ok(())
}
