ghost use Rattle.std.specs.Prelude.{◌≡◌, IfOk};
ghost use Rattle.schema_convert_types.specs.Names.{internal_name_of, raw_name_of};

use crate::items::{Item, all};
use cedar_data::List;
use cedar_identifiers::{Id, InternalName, RawName};
use schema_syntax_tree::{Path, SrcId};
use std::alloc::{AllocError, Global};

/// The name that a path is: its ids, at its place.
pub fn path_to_internal_name(alloc: Global, path: Path<'_>) -> Result<InternalName, AllocError>
    ensures { IfOk result (λ name. name ≡ internal_name_of path.entry) }
{
    internal_name(alloc, &path)
}

/// The path as a name that a namespace may still qualify.
pub fn path_to_raw_name(alloc: Global, path: Path<'_>) -> Result<RawName, AllocError>
    ensures { IfOk result (λ name. name ≡ raw_name_of path.entry) }
{
    raw_name(alloc, &path)
}

// The ids of a path.
struct Ids;

impl<'a> Item<'a> for Ids {
    type Tree = SrcId<'a>;

    type Out = Id;

    ghost translation = { λ id. id };

    fn translate(alloc: Global, item: &SrcId<'a>) -> Result<Id, AllocError> {
        item.to_id(alloc)
    }
}

// The name of the path's ids, at its place.
pub fn internal_name(alloc: Global, path: &Path<'_>) -> Result<InternalName, AllocError>
    ensures { IfOk result (λ name. name ≡ internal_name_of path.now) }
{
    let (first, others) = path.parts();
    Ok(InternalName {
        first: first.to_id(alloc)?,
        others: List::from_vec(all::<Ids>(alloc, others)?),
        loc: path.loc().copied(),
    })
}

// The name that the path is, as it was written.
pub fn raw_name(alloc: Global, path: &Path<'_>) -> Result<RawName, AllocError>
    ensures { IfOk result (λ name. name ≡ raw_name_of path.now) }
{
    Ok(RawName::from_internal(internal_name(alloc, path)?))
}

/// Paths, as names that namespaces may still qualify.
pub struct Paths;

impl<'a> Item<'a> for Paths {
    type Tree = Path<'a>;

    type Out = RawName;

    ghost translation = { raw_name_of };

    fn translate(alloc: Global, item: &Path<'a>) -> Result<RawName, AllocError> {
        raw_name(alloc, item)
    }
}
