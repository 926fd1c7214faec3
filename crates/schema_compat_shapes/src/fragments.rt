// Fragments.
ghost use Rattle.std.specs.Prelude.{◌≡◌, ◌⊎◌, MatchResult};
ghost use Rattle.serde_json.specs.View.{view};
ghost use Rattle.schema_json_shapes.specs.declared.shape_fault.ShapeFault.TheVariants.{Memory};
ghost use Rattle.schema_json_shapes.specs.Said.{IsText};
ghost use Rattle.schema_compat_shapes.specs.OldWalk.{old_namespace_demands};
ghost use Rattle.schema_compat_shapes.specs.OldParts.{IsOldNamespace, IsOldRead, IsFirstOldFault};

use crate::namespaces::read_namespace;
use cedar_data::Text;
use schema_compat_types::{NamespaceDefinition, SchemaFragment};
use schema_json_shapes::ShapeFault;
use schema_json_shapes::entries::{Entry, read_map};
use serde_json::Value;
use std::alloc::Global;

/// What a value says in the deprecated form, or the first fault of reading it. Numbers are not looked at, nor are the
/// names of namespaces and those in types.
pub fn read_fragment(alloc: Global, value: &Value) -> Result<SchemaFragment, ShapeFault>
    ensures { MatchResult result (IsOldRead (view value.now)) (λ e. (e ≡ Memory) ⊎ IsFirstOldFault (view value.now) e) }
{
    let namespaces = read_map::<Namespaces>(alloc, value, "")?;
    Ok(SchemaFragment(namespaces))
}

// The entries of a fragment.
struct Namespaces;

impl Entry for Namespaces {
    type Key = Text;

    type Item = NamespaceDefinition;

    ghost asks = { old_namespace_demands };

    ghost is_key = { IsText };

    ghost is_item = { IsOldNamespace };

    fn read(
        alloc: Global,
        key: &str,
        value: &Value,
    ) -> Result<(Text, NamespaceDefinition), ShapeFault> {
        let definition = read_namespace(alloc, value, key)?;
        Ok((Text::from_str(alloc, key)?, definition))
    }
}
