ghost use Rattle.std.specs.Prelude.{◌≡◌, [], map, IfOk, IfErr, OnOk};
ghost use Rattle.cedar_data.specs.Entries.{on_value};
ghost use Rattle.schema_resolve.specs.Faults.{NamesFirst};
ghost use Rattle.schema_resolve.specs.Renamed.{renamed_namespace};
ghost use Rattle.schema_json_walk.specs.Walk.{each_value, of_namespace};
ghost use Rattle.schema_resolve_targets.specs.ReferenceParts.{by_reference};

use crate::renamed::Renamed;
use crate::renamer::Renamer;
use crate::stop::Stop;
use cedar_data::{CloneIn, Map};
use cedar_identifiers::NameText;
use schema_json::NamespaceDefinition;
use std::alloc::Global;

// Declared items by name, with each name that they use replaced.
fn rename_entries<
    K: Ord + CloneIn + Drop,
    N: NameText,
    M: NameText,
    T: Renamed<N, M>,
    R: Renamer<N, M>,
>(alloc: Global, renamer: &R, entries: &Map<K, T>) -> Result<Map<K, T::Output>, Stop>
    ensures out { IfOk result (λ out. out
        ≡ map (on_value (T.output (R.becomes renamer.now) (R.action_becomes renamer.now))) entries.now) }
    ensures defined { OnOk result (each_value (T.undefined (R.untargeted renamer.now)) entries.now ≡ []) }
    ensures err { IfErr result (NamesFirst (each_value (T.undefined (R.untargeted renamer.now)) entries.now)) }
{
    let mut out = Vec::with_capacity(alloc, entries.as_slice().len())?;
    for (id, item) in entries.as_slice() {
        let id = id.clone_in(alloc)?;
        let item = item.renamed(alloc, renamer)?;
        out.push((id, item))?;
    }
    Ok(Map::from_sorted_vec(out))
}

// A namespace with each name that its declarations use replaced.
pub(crate) fn rename_namespace<N: NameText, M: NameText + Drop, R: Renamer<N, M>>(
    alloc: Global,
    renamer: &R,
    definition: &NamespaceDefinition<N>,
) -> Result<NamespaceDefinition<M>, Stop>
    ensures out { IfOk result (λ out. out ≡ renamed_namespace (R.becomes renamer.now)
        (R.action_becomes renamer.now) definition.now) }
    ensures defined { OnOk result (of_namespace (by_reference (R.untargeted renamer.now)) definition.now ≡ []) }
    ensures err { IfErr result (NamesFirst (of_namespace (by_reference (R.untargeted renamer.now)) definition.now)) }
{
    let common_types = rename_entries(alloc, renamer, &definition.common_types)?;
    let entity_types = rename_entries(alloc, renamer, &definition.entity_types)?;
    let actions = rename_entries(alloc, renamer, &definition.actions)?;
    Ok(NamespaceDefinition {
        common_types,
        entity_types,
        actions,
        annotations: definition.annotations.clone_in(alloc)?,
    })
}
