ghost use Rattle.std.specs.Prelude.{◌≡◌, ◌++◌, IfOk, OnOk};
ghost use Rattle.std.specs.List.{flat_map};
ghost use Rattle.schema_build_errors.specs.Joined.{IsJoined, of_types, of_actions};

use crate::schema_error::SchemaError;
use cedar_data::{CloneIn, NonEmpty};
use cedar_identifiers::ConditionalName;
use schema_json::ActionEntityUID;
use schema_resolve_errors::{ActionNotDefinedError, TypeNotDefinedError};
use std::alloc::{AllocError, Global};

impl SchemaError {
    /// One error for these: with all their undefined types, in order, where one of them is about such; else so with all
    /// their undefined actions; and else the first.
    pub fn join_nonempty(
        alloc: Global,
        errs: NonEmpty<SchemaError>,
    ) -> Result<SchemaError, AllocError>
        ensures { IfOk result (IsJoined errs) }
    {
        let mut types = Vec::new(alloc);
        let mut actions = Vec::new(alloc);
        for error in errs.iter() {
            add_types(alloc, &mut types, error)?;
            add_actions(alloc, &mut actions, error)?;
        }
        if let Some(undefined_types) = NonEmpty::from_vec(types) {
            return Ok(SchemaError::TypeNotDefined(TypeNotDefinedError { undefined_types }));
        }
        if let Some(undefined_actions) = NonEmpty::from_vec(actions) {
            return Ok(SchemaError::ActionNotDefined(ActionNotDefinedError(undefined_actions)));
        }
        let (first, _) = errs.into_parts();
        Ok(first)
    }
}

// Adds copies of the names, in order.
fn add_copies<T: CloneIn>(
    alloc: Global,
    copies: &mut Vec<T>,
    names: &NonEmpty<T>,
) -> Result<(), AllocError>
    ensures { OnOk result (copies.new.items ≡ copies.old.items ++ names.now) }
{
    for name in names.iter() {
        copies.push(name.clone_in(alloc)?)?;
    }
    Ok(())
}

// Adds the undefined types that the error names.
fn add_types(
    alloc: Global,
    types: &mut Vec<ConditionalName>,
    error: &SchemaError,
) -> Result<(), AllocError>
    ensures { OnOk result (types.new.items ≡ types.old.items ++ flat_map (λ x. x.undefined_types)
        (of_types error.now)) }
{
    match error {
        SchemaError::TypeNotDefined(error) => add_copies(alloc, types, &error.undefined_types),
        _ => Ok(()),
    }
}

// Adds the undefined actions that the error names.
fn add_actions(
    alloc: Global,
    actions: &mut Vec<ActionEntityUID<ConditionalName>>,
    error: &SchemaError,
) -> Result<(), AllocError>
    ensures { OnOk result (actions.new.items ≡ actions.old.items ++ flat_map (λ x. x.0) (of_actions error.now)) }
{
    match error {
        SchemaError::ActionNotDefined(error) => add_copies(alloc, actions, &error.0),
        _ => Ok(()),
    }
}
