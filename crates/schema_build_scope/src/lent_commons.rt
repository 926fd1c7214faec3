ghost use Rattle.std.specs.Prelude.{◌≡◌, ◌++◌, map, IfOk, OnOk};
ghost use Rattle.schema_build_scope.specs.Commons.{full_common_entry, declared_commons};
ghost use Rattle.schema_build_scope.specs.LentCommons.{lent_commons};

use cedar_identifiers::{InternalName, Name, RawName};
use schema_build_checks::declared_at::declared_at;
use schema_json::{CommonType, CommonTypeId, Fragment, Type};
use std::alloc::{AllocError, Global};

/// A type that is lent from its fragment.
#[derive(Drop)]
pub struct LentType<'f> {
    /// The namespace that it is written in.
    pub ns: &'f Option<Name>,
    /// The type.
    pub ty: &'f Type<RawName>,
}

// The common types that the fragment declares, in the order of the walk, each under its full name at the place of its
// declaration.
pub(crate) fn declared_commons<'f>(
    alloc: Global,
    fragment: &'f Fragment<RawName>,
) -> Result<Vec<(InternalName, LentType<'f>)>, AllocError>
    ensures { IfOk result (λ found. lent_commons found.items ≡ declared_commons fragment.now) }
{
    let mut found = Vec::new(alloc);
    for (ns, definition) in fragment.0.as_slice() {
        push_commons(alloc, &mut found, ns, definition.common_types.as_slice())?;
    }
    Ok(found)
}

// Adds the common types of a namespace.
fn push_commons<'f>(
    alloc: Global,
    found: &mut Vec<(InternalName, LentType<'f>)>,
    ns: &'f Option<Name>,
    commons: &'f [(CommonTypeId, CommonType<RawName>)],
) -> Result<(), AllocError>
    ensures { OnOk result (lent_commons found.new.items ≡ lent_commons found.old.items
        ++ map (full_common_entry ns.now) commons.now) }
{
    for (id, common) in commons {
        let name = declared_at(alloc, ns, &id.id.id, common.loc)?;
        let ty = &common.ty;
        found.push((name, LentType { ns, ty }))?;
    }
    Ok(())
}
