ghost use Rattle.std.specs.Prelude.{Option, OnOk, IfErr, if◌then◌else◌};
ghost use Rattle.std.specs.List.{FoldsTo};
ghost use Rattle.cedar_identifiers.specs.declared.name.Name.{Name};
ghost use Rattle.schema_json_walk.specs.Parts.{Part};
ghost use Rattle.schema_json_walk.specs.Visits.{part_of, StopsAmong};
ghost use Rattle.schema_json_walk.specs.Walk.{visit_where, itself};

use crate::lent_part::LentPart;
use cedar_identifiers::Name;

/// What is told each part of a fragment, in the order of the walk.
pub trait Visitor<N> {
    /// Why the walk stops.
    type Refusal;

    // in this namespace it takes the part, and becomes this
    ghost takes: { Option Name → Self → Part N → Self → Type 0 };

    // in this namespace it refuses the part so
    ghost refuses: { Option Name → Self → Part N → Self.Refusal → Type 0 };

    /// Takes the part, which stands in this namespace, or refuses it, and then the walk stops.
    fn visit(&mut self, ns: &Option<Name>, part: LentPart<'_, N>) -> Result<(), Self::Refusal>
        ensures taken { OnOk result (takes ns.now self.old (part_of part.entry) self.new) }
        ensures refused { IfErr result (refuses ns.now self.old (part_of part.entry)) };
}

// Tells the part.
#[inline(never)]
pub(crate) fn meet<'a, N, V: Visitor<N>>(
    visitor: &mut V,
    ns: &'a Option<Name>,
    part: LentPart<'a, N>,
) -> Result<(), V::Refusal>
    ensures taken { OnOk result (FoldsTo (V.takes ns.now) visitor.old (itself (part_of part.entry)) visitor.new) }
    ensures refused { IfErr result (StopsAmong (V.takes ns.now) (V.refuses ns.now) visitor.old
        (itself (part_of part.entry))) }
{
    visitor.visit(ns, part)
}

// Tells the part, where it is there.
#[inline(never)]
pub(crate) fn meet_where<'a, N, V: Visitor<N>>(
    visitor: &mut V,
    ns: &'a Option<Name>,
    there: bool,
    part: LentPart<'a, N>,
) -> Result<(), V::Refusal>
    ensures taken { OnOk result (FoldsTo (V.takes ns.now) visitor.old
        (visit_where itself there (part_of part.entry)) visitor.new) }
    ensures refused { IfErr result (StopsAmong (V.takes ns.now) (V.refuses ns.now) visitor.old
        (visit_where itself there (part_of part.entry))) }
{
    if there {
        return meet(visitor, ns, part);
    }
    Ok(())
}
