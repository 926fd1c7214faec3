// Fragments.
ghost use Rattle.std.specs.Prelude.{[]};
ghost use Rattle.serde_json.specs.View.{view};
ghost use Rattle.schema_json_shapes.specs.Walk.{fragment, demands, namespace_key_demands};
ghost use Rattle.schema_json_shapes.specs.Shapes.{IsNamespaceKey, IsNamespace, IsFragment};
ghost use Rattle.schema_json_shapes.specs.Reads.{ReadsValue};
ghost use Rattle.schema_json_shapes.specs.Entries.{entry_demands};

use crate::entries::{Entry, read_map};
use crate::names::read_namespace_name;
use crate::namespaces::read_namespace;
use crate::shape_fault::ShapeFault;
use cedar_identifiers::{Name, RawName};
use schema_json::{Fragment, NamespaceDefinition};
use serde_json::Value;
use std::alloc::Global;

/// The fragment that a value says, or its first fault. Numbers are not looked at.
pub fn read_fragment(alloc: Global, value: &Value) -> Result<Fragment<RawName>, ShapeFault>
    ensures { ReadsValue result (demands fragment [] (view value.now)) (IsFragment (view value.now)) }
{
    let namespaces = read_map::<Namespaces>(alloc, value, "")?;
    Ok(Fragment(namespaces))
}

// The entries of a fragment.
struct Namespaces;

impl Entry for Namespaces {
    type Key = Option<Name>;

    type Item = NamespaceDefinition<RawName>;

    ghost asks = { entry_demands fragment };

    ghost is_key = { IsNamespaceKey };

    ghost is_item = { IsNamespace };

    fn read(
        alloc: Global,
        key: &str,
        value: &Value,
    ) -> Result<(Option<Name>, NamespaceDefinition<RawName>), ShapeFault> {
        let name = read_key(alloc, key)?;
        let definition = read_namespace(alloc, value, key)?;
        Ok((name, definition))
    }
}

/// The name of a namespace, of which the empty one has none.
pub fn read_key(alloc: Global, key: &str) -> Result<Option<Name>, ShapeFault>
    ensures { ReadsValue result (namespace_key_demands key.now) (IsNamespaceKey key.now) }
{
    if key.len() == 0 {
        return Ok(None);
    }
    Ok(Some(read_namespace_name(alloc, key)?))
}
