ghost use Rattle.std.specs.Prelude.{OnOk, IfOk, IfErr};
ghost use Rattle.schema_json_walk.specs.Visits.{part_of};
ghost use Rattle.schema_json_walk.specs.Walk.{parts};
ghost use Rattle.schema_build_expand.specs.Finding.{Finds};
ghost use Rattle.schema_build_expand.specs.Ranks.{AreMeantRanks, AddsRankOf};

use crate::meanings::Meanings;
use cedar_identifiers::{Name, ReferenceType};
use schema_json::Type;
use schema_json_walk::{LentPart, Visitor, walk_type};
use std::alloc::{AllocError, Global};

// Gathers the ranks of the declared common types that references mean.
#[derive(Drop)]
struct RankFinder<'a, R> {
    alloc: Global,
    names: &'a R,
    ranks: Vec<usize>,
}

impl<'a, N, R: Meanings<N>> Visitor<N> for RankFinder<'a, R> {
    type Refusal = AllocError;

    ghost takes = { λ ns. Finds R.scope R.place };

    ghost refuses = { λ ns before part error. Unit {0} };

    fn visit(&mut self, _ns: &Option<Name>, part: LentPart<'_, N>) -> Result<(), AllocError>
        ensures taken { OnOk result (Finds R.scope R.place self.old (part_of part.entry) self.new) }
        ensures refused { IfErr result (λ error. Unit {0}) }
    {
        match part {
            LentPart::TypeReference { kind, name } => {
                add_rank(self.alloc, self.names, kind, name, &mut self.ranks)
            }
            _ => Ok(()),
        }
    }
}

// Adds the rank of the declared common type that the reference means, if it means one.
fn add_rank<N, R: Meanings<N>>(
    alloc: Global,
    names: &R,
    kind: ReferenceType,
    name: &N,
    ranks: &mut Vec<usize>,
) -> Result<(), AllocError>
    ensures { OnOk result (AddsRankOf (R.scope names.now) (R.place names.now) kind name.now ranks.old ranks.new) }
{
    if let Some(rank) = names.rank(alloc, kind, name)? {
        ranks.push(rank)?;
    }
    Ok(())
}

/// The ranks of the declared common types that the references of the type mean.
pub(crate) fn ranks_of<N, R: Meanings<N>>(
    alloc: Global,
    names: &R,
    ty: &Type<N>,
) -> Result<Vec<usize>, AllocError>
    ensures { IfOk result (λ ranks. AreMeantRanks (R.scope names.now) (R.place names.now) (parts ty.now) ranks.items) }
{
    let mut finder = RankFinder {
        alloc,
        names,
        ranks: Vec::new(alloc),
    };
    walk_type(&mut finder, &None, ty)?;
    Ok(finder.ranks)
}
