ghost use Rattle.std.specs.Prelude.{◌≡◌, false, map, All, IfOk};
ghost use Rattle.cedar_identifiers.specs.Names.{components_of, has_cedar};
ghost use Rattle.schema_build_hierarchy.specs.FirstUses.{AreFirstUses};

use cedar_identifiers::{InternalName, Name};
use std::alloc::{AllocError, Global};

// Each once, in order, as it stands first.
pub(crate) fn first_uses<T: Ord + Drop>(mut uses: Vec<T>) -> Result<Vec<T>, AllocError>
    ensures { IfOk result (λ firsts. AreFirstUses T.cmp uses.items firsts.items) }
{
    uses.sort()?;
    uses.dedup();
    Ok(uses)
}

// The names, none of which has the component `__cedar`.
pub(crate) fn unreserved(alloc: Global, names: Vec<InternalName>) -> Result<Vec<Name>, AllocError>
    requires { All (λ n. has_cedar (components_of n) ≡ false) names.items }
    ensures { IfOk result (λ made. map (λ n. n.name) made.items ≡ names.items) }
{
    let mut made = Vec::with_capacity(alloc, names.len())?;
    for name in names {
        match Name::from_internal(name) {
            Some(name) => made.push(name)?,
            None => unreachable!(),
        }
    }
    Ok(made)
}
