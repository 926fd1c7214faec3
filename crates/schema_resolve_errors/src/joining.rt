ghost use Rattle.std.specs.Prelude.{◌≡◌, ◌++◌, IfOk, OnOk};
ghost use Rattle.std.specs.List.{flat_map};

use crate::resolve_error::{ActionNotDefinedError, TypeNotDefinedError};
use cedar_data::NonEmpty;
use std::alloc::{AllocError, Global};

impl TypeNotDefinedError {
    /// One error for all the references of these, in order.
    pub fn join_nonempty(
        _alloc: Global,
        errs: NonEmpty<TypeNotDefinedError>,
    ) -> Result<TypeNotDefinedError, AllocError>
        ensures { IfOk result (λ e. e.undefined_types ≡ flat_map (λ x. x.undefined_types) errs) }
    {
        let (TypeNotDefinedError { undefined_types }, others) = errs.into_parts();
        let (head, mut tail) = undefined_types.into_parts();
        for error in others {
            let TypeNotDefinedError { undefined_types } = error;
            add_all(&mut tail, undefined_types)?;
        }
        Ok(TypeNotDefinedError {
            undefined_types: NonEmpty::from_parts(head, tail),
        })
    }
}

impl ActionNotDefinedError {
    /// One error for all the references of these, in order.
    pub fn join_nonempty(
        _alloc: Global,
        errs: NonEmpty<ActionNotDefinedError>,
    ) -> Result<ActionNotDefinedError, AllocError>
        ensures { IfOk result (λ e. e.0 ≡ flat_map (λ x. x.0) errs) }
    {
        let (ActionNotDefinedError(uids), others) = errs.into_parts();
        let (head, mut tail) = uids.into_parts();
        for error in others {
            let ActionNotDefinedError(uids) = error;
            add_all(&mut tail, uids)?;
        }
        Ok(ActionNotDefinedError(NonEmpty::from_parts(head, tail)))
    }
}

// Adds the items at the end.
fn add_all<T: Drop>(tail: &mut Vec<T>, items: NonEmpty<T>) -> Result<(), AllocError>
    ensures { OnOk result (tail.new.items ≡ tail.old.items ++ items) }
{
    let (first, others) = items.into_parts();
    tail.push(first)?;
    for item in others {
        tail.push(item)?;
    }
    Ok(())
}
