// Annotations.
ghost use Rattle.std.specs.Prelude.{◌≡◌, IfOk, OnOk, map};
ghost use Rattle.serde_json.specs.Data.{no_members};
ghost use Rattle.serde_json.specs.View.{view, members_view};
ghost use Rattle.schema_json_values.specs.TypeValues.{with_annotations, put_all, annotation_entry, text_or_null};

use crate::leaves::{Members, text_value};
use cedar_data::Text;
use cedar_identifiers::{Annotations, AnyId};
use serde_json::{Map, Value, put};
use std::alloc::{AllocError, Global};

/// Adds the annotations, where there are any.
pub fn put_annotations(
    members: &mut Members,
    alloc: Global,
    annotations: &Annotations,
) -> Result<(), AllocError>
    ensures { OnOk result (members_view members.new.entries
        ≡ with_annotations annotations.now.0 (members_view members.old.entries)) }
{
    let entries = annotations.0.as_slice();
    if entries.len() == 0 {
        return Ok(());
    }
    let value = Value::Object(annotation_members(alloc, entries)?);
    put(members, alloc, "annotations", value)
}

fn annotation_members(
    alloc: Global,
    entries: &[(AnyId, Option<Text>)],
) -> Result<Members, AllocError>
    ensures { IfOk result (λ m. members_view m.entries ≡ put_all (map annotation_entry entries.now) no_members) }
{
    let mut members = Map::new(alloc);
    for (key, text) in entries {
        let value = text_or_null(alloc, text)?;
        put(&mut members, alloc, key.as_str(), value)?;
    }
    Ok(members)
}

// The JSON value of a text, or null where there is none.
fn text_or_null(alloc: Global, text: &Option<Text>) -> Result<Value, AllocError>
    ensures { IfOk result (λ v. view v ≡ text_or_null text.now) }
{
    match text {
        Some(text) => text_value(alloc, text.as_str()),
        None => Ok(Value::Null),
    }
}
