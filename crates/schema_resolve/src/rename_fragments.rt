ghost use Rattle.std.specs.Prelude.{◌≡◌, [], List, ℕ, Option, IfOk, IfErr, OnOk};
ghost use Rattle.cedar_identifiers.specs.declared.name.Name.{Name};
ghost use Rattle.schema_resolve.specs.Faults.{NamesFirst};
ghost use Rattle.schema_resolve.specs.Renamed.{Renaming, renamed_namespace, renamed_fragment};
ghost use Rattle.schema_resolve_targets.specs.Undefined.{Undefined};
ghost use Rattle.schema_json_walk.specs.Walk.{of_namespace, of_fragment};
ghost use Rattle.schema_resolve_targets.specs.ReferenceParts.{GivenBy, by_reference};

use crate::stop::Stop;
use cedar_data::{CloneIn, Map};
use cedar_identifiers::{Name, NameText};
use schema_json::{Fragment, NamespaceDefinition};
use std::alloc::Global;

// What each name in each namespace becomes.
pub(crate) trait FragmentRenamer<N: NameText, M: NameText> {
    ghost becomes_in: { Self → Option Name → Renaming N M };

    ghost action_becomes_in: { Self → Option Name → List ℕ → Option N → M };

    ghost untargeted_in: { Self → Option Name → GivenBy N Undefined };

    fn rename_in(
        &self,
        alloc: Global,
        ns: &Option<Name>,
        definition: &NamespaceDefinition<N>,
    ) -> Result<NamespaceDefinition<M>, Stop>
        ensures out { IfOk result (λ out. out ≡ renamed_namespace (becomes_in self.now ns.now)
            (action_becomes_in self.now ns.now) definition.now) }
        ensures defined { OnOk result (of_namespace (by_reference (untargeted_in self.now ns.now)) definition.now
            ≡ []) }
        ensures err { IfErr result (NamesFirst
            (of_namespace (by_reference (untargeted_in self.now ns.now)) definition.now)) };
}

// A fragment with each name that its declarations use replaced.
pub(crate) fn rename_fragment<N: NameText, M: NameText + Drop, R: FragmentRenamer<N, M>>(
    alloc: Global,
    renamer: &R,
    fragment: &Fragment<N>,
) -> Result<Fragment<M>, Stop>
    ensures out { IfOk result (λ out. out ≡ renamed_fragment (R.becomes_in renamer.now)
        (R.action_becomes_in renamer.now) fragment.now) }
    ensures defined { OnOk result (of_fragment (λ ns. by_reference (R.untargeted_in renamer.now ns)) fragment.now
        ≡ []) }
    ensures err { IfErr result (NamesFirst
        (of_fragment (λ ns. by_reference (R.untargeted_in renamer.now ns)) fragment.now)) }
{
    let mut out = Vec::with_capacity(alloc, fragment.0.as_slice().len())?;
    for (ns, definition) in fragment.0.as_slice() {
        let definition = renamer.rename_in(alloc, ns, definition)?;
        out.push((ns.clone_in(alloc)?, definition))?;
    }
    Ok(Fragment(Map::from_sorted_vec(out)))
}
