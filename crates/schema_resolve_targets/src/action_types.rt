ghost use Rattle.std.specs.Prelude.{◌≡◌, IfOk};
ghost use Rattle.schema_json.specs.Actions.{written_type};

use cedar_data::CloneIn;
use cedar_identifiers::RawName;
use schema_json::action_uid::action_name;
use std::alloc::{AllocError, Global};

/// The type as it is written, and `Action` where none is.
pub fn written(alloc: Global, ty: &Option<RawName>) -> Result<RawName, AllocError>
    ensures { IfOk result (λ name. name ≡ record { name = written_type ty.now }) }
{
    match ty {
        Some(ty) => ty.clone_in(alloc),
        None => Ok(RawName::from_internal(action_name(alloc)?)),
    }
}
