// Namespaces and fragments.
ghost use Rattle.std.specs.List.{AllZip, flat_map};
ghost use Rattle.schema_json_shapes.specs.Reads.{ReadsValue};
ghost use Rattle.schema_compat_convert.specs.Demands.{asks_namespace, asks_entry, asks_fragment};
ghost use Rattle.schema_compat_convert.specs.Converted.{NamespaceBecomes, EntryBecomes, FragmentBecomes};

use crate::convert::convert_map;
use cedar_data::{Map, Text};
use cedar_identifiers::{Annotations, Name, RawName};
use schema_compat_types::{NamespaceDefinition as OldNamespace, SchemaFragment};
use schema_json::{Fragment, NamespaceDefinition};
use schema_json_shapes::ShapeFault;
use schema_json_shapes::fragments::read_key;
use std::alloc::Global;

/// The fragment that the data of the deprecated form becomes, or its first fault.
pub fn convert_fragment(
    alloc: Global,
    fragment: SchemaFragment,
) -> Result<Fragment<RawName>, ShapeFault>
    ensures { ReadsValue result (asks_fragment fragment) (FragmentBecomes fragment) }
{
    let SchemaFragment(namespaces) = fragment;
    let entries = convert_entries(alloc, namespaces.into_vec())?;
    let namespaces = Map::from_entries(alloc, entries)?;
    Ok(Fragment(namespaces))
}

// Namespaces under their names, in the order of the names' texts.
fn convert_entries(
    alloc: Global,
    entries: Vec<(Text, OldNamespace)>,
) -> Result<Vec<(Option<Name>, NamespaceDefinition<RawName>)>, ShapeFault>
    ensures { ReadsValue result (flat_map asks_entry entries.items)
        (λ out. AllZip EntryBecomes entries.items out.items) }
{
    let mut out = Vec::new(alloc);
    for (name, namespace) in entries {
        let entry = convert_entry(alloc, &name, namespace)?;
        out.push(entry)?;
    }
    Ok(out)
}

fn convert_entry(
    alloc: Global,
    name: &Text,
    namespace: OldNamespace,
) -> Result<(Option<Name>, NamespaceDefinition<RawName>), ShapeFault>
    ensures { ReadsValue result (asks_entry (name.now, namespace)) (EntryBecomes (name.now, namespace)) }
{
    let name = read_key(alloc, name.as_str())?;
    let namespace = convert_namespace(alloc, namespace)?;
    Ok((name, namespace))
}

fn convert_namespace(
    alloc: Global,
    namespace: OldNamespace,
) -> Result<NamespaceDefinition<RawName>, ShapeFault>
    ensures { ReadsValue result (asks_namespace namespace) (NamespaceBecomes namespace) }
{
    let OldNamespace {
        common_types,
        entity_types,
        actions,
    } = namespace;
    let actions = convert_map(alloc, actions)?;
    let common_types = convert_map(alloc, common_types)?;
    let entity_types = convert_map(alloc, entity_types)?;
    Ok(NamespaceDefinition {
        common_types,
        entity_types,
        actions,
        annotations: Annotations::new(alloc),
    })
}
