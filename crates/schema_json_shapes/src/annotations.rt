// Annotations.
ghost use Rattle.std.specs.Prelude.{codes};
ghost use Rattle.serde_json.specs.View.{view, members_view};
ghost use Rattle.serde_json.specs.Find.{get_member};
ghost use Rattle.schema_json_shapes.specs.Walk.{annotations, annotation, demands};
ghost use Rattle.schema_json_shapes.specs.Said.{IsAnyId, IsAnnotation, IsAnnotationMap};
ghost use Rattle.schema_json_shapes.specs.Reads.{ReadsValue, field_demands};
ghost use Rattle.schema_json_shapes.specs.Entries.{entry_demands};

use crate::entries::{Entry, read_map};
use crate::fields::{Members, at};
use crate::leaves::wrong_type;
use crate::names::read_any_id;
use crate::shape_fault::ShapeFault;
use cedar_data::{SharedMap, Text};
use cedar_identifiers::{Annotations, AnyId};
use serde_json::Value;
use std::alloc::Global;

/// The annotations that stand beside something.
pub fn annotations_at(alloc: Global, members: &Members) -> Result<Annotations, ShapeFault>
    ensures { let o = get_member (codes "annotations") (members_view members.now.entries) in
        ReadsValue result (field_demands annotations (codes "annotations") o) (IsAnnotationMap o) }
{
    match at(members, "annotations") {
        Some(value) => read_annotations(alloc, value),
        None => Ok(Annotations::new(alloc)),
    }
}

fn read_annotations(alloc: Global, value: &Value) -> Result<Annotations, ShapeFault>
    ensures { ReadsValue result (demands annotations (codes "annotations") (view value.now))
        (IsAnnotationMap (Some (view value.now))) }
{
    let notes = read_map::<Notes>(alloc, value, "annotations")?;
    Ok(Annotations(SharedMap::from_map(alloc, notes)?))
}

// The entries of `annotations`.
struct Notes;

impl Entry for Notes {
    type Key = AnyId;

    type Item = Option<Text>;

    ghost asks = { entry_demands annotations };

    ghost is_key = { IsAnyId };

    ghost is_item = { IsAnnotation };

    fn read(alloc: Global, key: &str, value: &Value) -> Result<(AnyId, Option<Text>), ShapeFault> {
        let id = read_any_id(alloc, key)?;
        let text = read_annotation(alloc, value, key)?;
        Ok((id, text))
    }
}

fn read_annotation(alloc: Global, value: &Value, label: &str) -> Result<Option<Text>, ShapeFault>
    ensures { ReadsValue result (demands annotation label.now (view value.now)) (IsAnnotation (view value.now)) }
{
    match value {
        Value::Null => Ok(None),
        Value::String(text) => Ok(Some(Text::from_str(alloc, text.as_str())?)),
        _ => Err(wrong_type(alloc, label)),
    }
}
