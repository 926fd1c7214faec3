ghost use Rattle.std.specs.Prelude.{◌≡◌, ◌<◌, length, All, IfOk, IfErr, OnOk};
ghost use Rattle.schema_build_expand.specs.Scope.{Scope};
ghost use Rattle.schema_build_expand.specs.Targets.{AreExpanded};
ghost use Rattle.schema_build_expand.specs.Commons.{AreCommons};
ghost use Rattle.schema_build_expand.specs.Rows.{AreMeantRows, AreMeant, IsCycleFault, NoneRound};
ghost use Rattle.schema_build_expand.specs.Uses.{AreIn, AreRanksAmong, AreReady, AreUsesMeant};

use crate::commons::expand_commons;
use crate::meanings::Meanings;
use crate::ranks::ranks_of;
use schema_build_graph::{OrderFault, needed, order_or_least};
use schema_build_types::Type as BuiltType;
use schema_json::Type;
use std::alloc::{AllocError, Global};

// For each declared common type the ranks of those that its references mean.
fn rows_of<N, R: Meanings<N>>(
    alloc: Global,
    commons: &[(R, &Type<N>)],
) -> Result<Vec<Vec<usize>>, AllocError>
    ghost s: { Scope N }
    requires { AreCommons s R.scope R.place commons.now }
    ensures { IfOk result (λ rows. AreMeantRows s R.place commons.now rows.items) }
{
    let mut rows = Vec::with_capacity(alloc, commons.len())?;
    for (names, ty) in commons {
        let row = ranks_of(alloc, names, ty)?;
        rows.push(row)?;
    }
    Ok(rows)
}

// The ranks of the declared common types, of which there are so many, that the references of these types mean. Where
// there are none, no reference is looked at.
fn roots_of<N, R: Meanings<N>>(
    alloc: Global,
    count: usize,
    uses: &[(R, &Type<N>)],
) -> Result<Vec<usize>, AllocError>
    ghost s: { Scope N }
    requires count { length s.commons ≡ count }
    requires uses { AreIn s R.scope uses.now }
    ensures below { IfOk result (λ roots. All (λ k. k < length s.commons) roots.items) }
    ensures whole { IfOk result (λ roots. AreRanksAmong s R.place uses.now roots.items) }
{
    let mut roots = Vec::new(alloc);
    if count == 0 {
        return Ok(roots);
    }
    for (names, ty) in uses {
        let row = ranks_of(alloc, names, ty)?;
        roots.extend_from_slice(&row)?;
    }
    Ok(roots)
}

/// What declared common types stand for, by their ranks, where none reaches itself by references; else the least rank
/// that does, unless out of memory. Those are expanded, each once, that these uses lead to. Beside each type stands
/// what names mean where it is written. No recursion goes from one common type to another.
pub fn expansions<N, R: Meanings<N>>(
    alloc: Global,
    commons: &[(R, &Type<N>)],
    uses: &[(R, &Type<N>)],
) -> Result<Vec<Option<BuiltType>>, OrderFault>
    ghost s: { Scope N }
    requires commons { AreCommons s R.scope R.place commons.now }
    requires count { length s.commons ≡ length commons.now }
    requires meant { AreMeant s R.place commons.now }
    requires uses { AreIn s R.scope uses.now }
    requires used { AreUsesMeant s R.place uses.now }
    ensures expanded { IfOk result (λ done. AreExpanded s done.items) }
    ensures ready { IfOk result (λ done. AreReady s R.place uses.now done.items) }
    ensures acyclic { OnOk result (NoneRound s R.place commons.now) }
    ensures fault { IfErr result (IsCycleFault s R.place commons.now) }
{
    let rows = rows_of(alloc, commons)?;
    let order = order_or_least(alloc, &rows)?;
    let roots = roots_of(alloc, commons.len(), uses)?;
    let wanted = needed(alloc, &rows, &order, &roots)?;
    Ok(expand_commons(alloc, commons, &wanted)?)
}
