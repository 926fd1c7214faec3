// The values of types.
ghost use Rattle.std.specs.Prelude.{◌≡◌, false, codes};
ghost use Rattle.serde_json.specs.View.{view, members_view};
ghost use Rattle.serde_json.specs.Find.{get_member};
ghost use Rattle.schema_json_shapes.specs.Reads.{ReadsValue};
ghost use Rattle.schema_compat_shapes.specs.OldTypes.{SaysOldType};
ghost use Rattle.schema_compat_shapes.specs.OldWalk.{old_type_demands, old_word_demands, at_field};
ghost use Rattle.schema_compat_shapes.specs.OldParts.{IsOldType, IsOldShape, old_empty_record};

use crate::types::read_type;
use cedar_data::{Map, Text};
use schema_compat_types::{AttributesOrContext, SchemaType, SchemaTypeVariant};
use schema_json_shapes::ShapeFault;
use schema_json_shapes::fields::{Members, at};
use schema_json_shapes::leaves::wrong_type;
use serde_json::Value;
use std::alloc::Global;

// The type that a value says in the deprecated form, or its first fault, under the name `label`.
pub(crate) fn read_type_value(
    alloc: Global,
    value: &Value,
    label: &str,
) -> Result<SchemaType, ShapeFault>
    ensures { ReadsValue result (old_type_demands label.now (view value.now)) (IsOldType (view value.now)) }
{
    match value.as_object() {
        Some(members) => read_typed(alloc, members),
        None => Err(wrong_type(alloc, label)),
    }
}

// The type that an object says, which has a text as its member `type`.
fn read_typed(alloc: Global, members: &Members) -> Result<SchemaType, ShapeFault>
    ensures { let ms = members_view members.now.entries in
        ReadsValue result (old_word_demands (get_member (codes "type") ms)) (SaysOldType false ms) }
{
    match at(members, "type") {
        Some(Value::String(_)) => Ok(read_type(alloc, members, false)?),
        Some(_) => Err(wrong_type(alloc, "type")),
        None => Err(ShapeFault::MissingField(Text::from_str(alloc, "type")?)),
    }
}

// The type in a field, and the closed record without attributes where it is absent.
pub(crate) fn shape_at(
    alloc: Global,
    members: &Members,
    name: &str,
) -> Result<AttributesOrContext, ShapeFault>
    ensures { let o = get_member name.now (members_view members.now.entries) in
        ReadsValue result (at_field old_type_demands name.now o) (IsOldShape o) }
{
    match at(members, name) {
        Some(value) => Ok(AttributesOrContext(read_type_value(alloc, value, name)?)),
        None => Ok(AttributesOrContext(empty_record(alloc))),
    }
}

// The closed record without attributes, which takes no memory.
fn empty_record(alloc: Global) -> SchemaType
    ensures { result ≡ old_empty_record }
{
    SchemaType::Variant(SchemaTypeVariant::Record {
        attributes: Map::new(alloc),
        additional_attributes: false,
    })
}
