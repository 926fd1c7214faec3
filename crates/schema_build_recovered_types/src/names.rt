ghost use Rattle.std.specs.Prelude.{◌∷◌, IfOk};
ghost use Rattle.cedar_identifiers.specs.Names.{components_of, texts_of};
ghost use Rattle.schema_build_recovered_types.specs.RecoveredTypes.{IsName, IsWritten};

use cedar_data::{CloneIn, List};
use cedar_identifiers::{Id, InternalName, Name, RawName};
use std::alloc::{AllocError, Global};

/// The name of these words, without a place.
pub fn name_of(alloc: Global, first: &Id, others: &[Id]) -> Result<InternalName, AllocError>
    ensures { IfOk result (λ name. IsName (texts_of (first.now ∷ others.now)) name) }
{
    let first = first.clone_in(alloc)?;
    let mut copies = Vec::with_capacity(alloc, others.len())?;
    for id in others {
        copies.push(id.clone_in(alloc)?)?;
    }
    let others = List::from_vec(copies);
    Ok(InternalName {
        first,
        others,
        loc: None,
    })
}

/// The name as it is written, without a place.
pub fn written_name(alloc: Global, name: &Name) -> Result<RawName, AllocError>
    ensures { IfOk result (IsWritten (components_of name.now.name)) }
{
    let name = name_of(alloc, &name.name.first, name.name.others.as_slice())?;
    Ok(RawName { name })
}
