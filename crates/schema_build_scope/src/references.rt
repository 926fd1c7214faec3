ghost use Rattle.std.specs.Prelude.{OnOk, IfErr};
ghost use Rattle.schema_build_checks.specs.Rows.{Never, OrMemory};
ghost use Rattle.schema_build_scope.specs.Rows.{OrElse};
ghost use Rattle.schema_build_scope.specs.UndefinedRows.{HasUndefinedTypes, HasUndefinedActions};

use crate::fragment_names::FragmentNames;
use cedar_data::NonEmpty;
use schema_build_errors::{Refusal, SchemaError};
use schema_resolve_errors::{ActionNotDefinedError, TypeNotDefinedError};
use schema_resolve_targets::{UndefinedReferences, gather_undefined};
use std::alloc::Global;

/// Refuses a fragment with references to types that mean nothing, and names them all in the order of the walk; else one
/// with references to actions that mean nothing, and names all of those.
pub fn check_references(alloc: Global, names: &FragmentNames<'_>) -> Result<(), Refusal>
    ensures types { OnOk result (Never (HasUndefinedTypes names.now.fragment names.now.table)) }
    ensures actions { OnOk result (Never (HasUndefinedActions names.now.fragment names.now.table)) }
    ensures err { IfErr result (OrMemory (OrElse (HasUndefinedTypes names.now.fragment names.now.table)
        (HasUndefinedActions names.now.fragment names.now.table))) }
{
    let found = gather_undefined(alloc, names.fragment(), names.defs())?;
    let UndefinedReferences { types, actions } = found;
    if let Some(undefined_types) = NonEmpty::from_vec(types) {
        let error = TypeNotDefinedError { undefined_types };
        return Err(Refusal::new(alloc, SchemaError::TypeNotDefined(error))?);
    }
    match NonEmpty::from_vec(actions) {
        Some(uids) => {
            let error = ActionNotDefinedError(uids);
            Err(Refusal::new(alloc, SchemaError::ActionNotDefined(error))?)
        }
        None => Ok(()),
    }
}
