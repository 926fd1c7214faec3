// The values of a map, converted one after another.
ghost use Rattle.std.specs.Prelude.{List};
ghost use Rattle.schema_json_shapes.specs.Walk.{Demand};
ghost use Rattle.schema_json_shapes.specs.Reads.{ReadsValue};
ghost use Rattle.schema_compat_convert.specs.Demands.{asks_values};
ghost use Rattle.schema_compat_convert.specs.Converted.{MapBecomes};

use cedar_data::Map;
use schema_json_shapes::ShapeFault;
use std::alloc::Global;

/// What is declared under a name in the deprecated form.
pub trait Convert: Drop {
    /// What stands for it in a fragment.
    type Out: Drop;

    /// What it must keep, in the order of the walk.
    ghost asks: { Self → List Demand };

    /// What it becomes.
    ghost Becomes: { Self → Self.Out → Type 0 };

    /// What it says, or its first fault.
    fn convert(self, alloc: Global) -> Result<Self::Out, ShapeFault>
        ensures { ReadsValue result (asks self) (Becomes self) };
}

/// A map with each value converted.
pub fn convert_map<K: Ord + Drop, V: Convert>(
    alloc: Global,
    map: Map<K, V>,
) -> Result<Map<K, V::Out>, ShapeFault>
    ensures { ReadsValue result (asks_values V.asks map) (MapBecomes K.cmp V.Becomes map) }
{
    let mut out = Vec::new(alloc);
    for (key, value) in map.into_vec() {
        let value = value.convert(alloc)?;
        out.push((key, value))?;
    }
    Ok(Map::from_sorted_vec(out))
}
