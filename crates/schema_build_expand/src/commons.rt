ghost use Rattle.std.specs.Prelude.{◌≡◌, ◌<◌, All, None, length, IfOk};
ghost use Rattle.schema_build_expand.specs.Scope.{Scope};
ghost use Rattle.schema_build_expand.specs.Targets.{AreExpanded};
ghost use Rattle.schema_build_expand.specs.Commons.{AreCommons, AreBehind, IsDone};

use crate::expand::expand_type;
use crate::meanings::Meanings;
use schema_build_types::{DEEPEST, Type as BuiltType, is_deeper};
use schema_json::Type;
use std::alloc::{AllocError, Global};

// Room for the expansion of each.
fn none_of(alloc: Global, count: usize) -> Result<Vec<Option<BuiltType>>, AllocError>
    ensures none { IfOk result (λ done. All (λ d. d ≡ None) done.items) }
    ensures len { IfOk result (λ done. length done.items ≡ count) }
{
    let mut done = Vec::with_capacity(alloc, count)?;
    for _ in 0..count {
        done.push(None)?;
    }
    Ok(done)
}

/// What the declared common types of these ranks stand for, each expanded once. The order has each behind those that
/// its type refers to, and beside each type stands what names mean where it is declared. It errs when out of memory, or
/// of the stack: where sets and records are nested more than `DEEPEST` deep.
pub fn expand_commons<N, R: Meanings<N>>(
    alloc: Global,
    commons: &[(R, &Type<N>)],
    order: &[usize],
) -> Result<Vec<Option<BuiltType>>, AllocError>
    ghost s: { Scope N }
    requires commons { AreCommons s R.scope R.place commons.now }
    requires below { All (λ v. v < length commons.now) order.now }
    requires behind { AreBehind s R.place commons.now order.now }
    ensures expanded { IfOk result (λ done. AreExpanded s done.items) }
    ensures len { IfOk result (λ done. length done.items ≡ length commons.now) }
    ensures whole { IfOk result (λ done. All (IsDone done.items) order.now) }
{
    let mut done = none_of(alloc, commons.len())?;
    for &rank in order {
        let (names, ty) = &commons[rank];
        let ty = expand_type(alloc, names, &done, ty)?;
        if is_deeper(&ty, DEEPEST) {
            return Err(AllocError);
        }
        done[rank] = Some(ty);
    }
    Ok(done)
}
