// Objects whose members are read alike, one by one.
ghost use Rattle.serde_json.specs.View.{view, members_view};
ghost use Rattle.schema_json_shapes.specs.Said.{IsMap, AreEntries};
ghost use Rattle.schema_json_shapes.specs.Reads.{ReadsValue};
ghost use Rattle.schema_json_shapes.specs.Entries.{each_entry, of_object};

use crate::fields::Members;
use crate::leaves::wrong_type;
use crate::shape_fault::ShapeFault;
use cedar_data::Map;
use serde_json::Value;
use std::alloc::Global;

/// A kind of entries of an object: what one must keep, and what its key and its value say.
pub trait Entry {
    ghost use Rattle.std.specs.Prelude.{ℕ, List};
    ghost use Rattle.serde_json.specs.Data.{Data};
    ghost use Rattle.serde_json.specs.View.{view};
    ghost use Rattle.schema_json_shapes.specs.Walk.{Demand};
    ghost use Rattle.schema_json_shapes.specs.Reads.{ReadsValue};

    /// What a key says.
    type Key: Ord + Drop;

    /// What a value says.
    type Item: Drop;

    ghost asks: { List ℕ → Data → List Demand };

    ghost is_key: { List ℕ → Self.Key → Type 0 };

    ghost is_item: { Data → Self.Item → Type 0 };

    /// What the key and the value say, or their first fault; or out of memory.
    fn read(alloc: Global, key: &str, value: &Value) -> Result<(Self::Key, Self::Item), ShapeFault>
        ensures { ReadsValue result (asks key.now (view value.now))
            (λ entry. is_key key.now entry.0 × is_item (view value.now) entry.1) };
}

// The entries, in the order of the members.
fn entries<E: Entry>(alloc: Global, members: &Members) -> Result<Vec<(E::Key, E::Item)>, ShapeFault>
    ensures { let ms = members_view members.now.entries in
        ReadsValue result (each_entry E.asks ms) (λ entries. AreEntries E.is_key E.is_item ms entries.items) }
{
    let mut entries = Vec::with_capacity(alloc, members.len())?;
    for (key, value) in members {
        let entry = E::read(alloc, key.as_str(), value)?;
        entries.push(entry)?;
    }
    Ok(entries)
}

/// The map of the entries of an object, under the name that its faults give it.
pub fn read_map<E: Entry>(
    alloc: Global,
    value: &Value,
    label: &str,
) -> Result<Map<E::Key, E::Item>, ShapeFault>
    ensures { ReadsValue result (of_object (each_entry E.asks) label.now (view value.now))
        (IsMap E.Key.cmp E.is_key E.is_item (view value.now)) }
{
    match value.as_object() {
        Some(members) => {
            let entries = entries::<E>(alloc, members)?;
            Ok(Map::from_entries(alloc, entries)?)
        }
        None => Err(wrong_type(alloc, label)),
    }
}
