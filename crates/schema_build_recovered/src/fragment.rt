ghost use Rattle.std.specs.Prelude.{◌≡◌, [], map, OnOk, IfOk, IfErr};
ghost use Rattle.cedar_names.specs.CanonicalText.{namespaces};
ghost use Rattle.cedar_names.specs.Meaning.{SchemaMeaning};
ghost use Rattle.schema_build_types.specs.Content.{content};
ghost use Rattle.schema_build_types.specs.Lacks.{schema_lacks};
ghost use Rattle.schema_build_types.specs.Standing.{SchemaStandsFor};
ghost use Rattle.schema_build_text.specs.Readings.{schema_reading};
ghost use Rattle.schema_build_recovered.specs.Places.{words_of};
ghost use Rattle.schema_build_recovered.specs.Recovered.{IsRecoveredFragment};
ghost use Rattle.schema_build_recovered_types.specs.FirstLacks.{IsFirstLack};

use crate::names::{Namespace, namespace_of};
use crate::namespaces::recover_namespaces;
use crate::sets::in_order;
use cedar_data::Map;
use cedar_identifiers::RawName;
use schema_build_errors::RecoveryError;
use schema_build_text::laws::meanings_are_read_back;
use schema_build_types::{ActionEntry, EntityTypeEntry};
use schema_json::Fragment;
use std::alloc::{AllocError, Global};

// The items, lent.
fn lend<'a, T>(alloc: Global, items: &'a [T]) -> Result<Vec<&'a T>, AllocError>
    ensures { IfOk result (λ lent. map (λ x. x.now) lent.items ≡ items.now) }
{
    let mut lent = Vec::with_capacity(alloc, items.len())?;
    for item in items {
        lent.push(item)?;
    }
    Ok(lent)
}

// The namespaces of the items, in order, each once.
fn namespaces<'a>(
    alloc: Global,
    entities: &'a [EntityTypeEntry],
    actions: &'a [ActionEntry],
) -> Result<Vec<Namespace<'a>>, AllocError>
    ensures { IfOk result (λ found. map (λ n. words_of n.words) found.items
        ≡ namespaces (schema_reading (content entities.now actions.now))) }
{
    let mut all = Vec::new(alloc);
    for entity in entities {
        all.push(namespace_of(&entity.name))?;
    }
    for action in actions {
        all.push(namespace_of(&action.uid.ty))?;
    }
    let rising = in_order(alloc, &all)?;
    let mut namespaces = Vec::with_capacity(alloc, rising.len())?;
    for at in 0..rising.len() {
        namespaces.push(*rising[at])?;
    }
    Ok(namespaces)
}

/// The fragment that is recovered of a built schema of these entity types and actions: that of each meaning that the
/// schema stands for. Refused is what no text says, by the first that is lacking, in the order of the walk.
pub fn recovered_fragment(
    alloc: Global,
    entities: &[EntityTypeEntry],
    actions: &[ActionEntry],
) -> Result<Fragment<RawName>, RecoveryError>
    ensures recovered { IfOk result (λ f. (m : SchemaMeaning) → SchemaStandsFor entities.now actions.now m
        → IsRecoveredFragment m f) }
    ensures whole { OnOk result (schema_lacks (content entities.now actions.now) ≡ []) }
    ensures lack { IfErr result (IsFirstLack (schema_lacks (content entities.now actions.now))) }
{
    meanings_are_read_back();
    let namespaces = namespaces(alloc, entities, actions)?;
    let entities = lend(alloc, entities)?;
    let actions = lend(alloc, actions)?;
    let mut found = Vec::new(alloc);
    recover_namespaces(alloc, &namespaces, &entities, &actions, &mut found)?;
    Ok(Fragment(Map::from_entries(alloc, found)?))
}
