// Flags and texts.
ghost use Rattle.std.specs.Prelude.{◌≡◌, Some};
ghost use Rattle.serde_json.specs.View.{view, members_view};
ghost use Rattle.serde_json.specs.Find.{get_member};
ghost use Rattle.schema_json_shapes.specs.Walk.{flag, flag_or, text, demands, wrong_type as wrong};
ghost use Rattle.schema_json_shapes.specs.Shapes.{IsTextIn};
ghost use Rattle.schema_json_shapes.specs.Reads.{ReadsValue, IsDemandFault, field_demands};

use crate::fields::{Members, at};
use crate::shape_fault::ShapeFault;
use cedar_data::Text;
use serde_json::Value;
use std::alloc::Global;

/// The fault of a value of another kind than its field has.
pub fn wrong_type(alloc: Global, label: &str) -> ShapeFault
    ensures { IsDemandFault (wrong label.now) result }
{
    match Text::from_str(alloc, label) {
        Ok(name) => ShapeFault::WrongType(name),
        Err(_) => ShapeFault::Memory,
    }
}

/// The flag in a field that may be absent.
pub fn flag_at(
    alloc: Global,
    members: &Members,
    name: &str,
    otherwise: bool,
) -> Result<bool, ShapeFault>
    ensures { let o = get_member name.now (members_view members.now.entries) in
        ReadsValue result (field_demands flag name.now o) (λ b. b ≡ flag_or otherwise o) }
{
    match at(members, name) {
        Some(Value::Bool(b)) => Ok(*b),
        Some(_) => Err(wrong_type(alloc, name)),
        None => Ok(otherwise),
    }
}

/// The text that a value is, or that it is none, under the name `label`.
pub fn read_text(alloc: Global, value: &Value, label: &str) -> Result<Text, ShapeFault>
    ensures { ReadsValue result (demands text label.now (view value.now)) (IsTextIn (Some (view value.now))) }
{
    match value {
        Value::String(text) => Ok(Text::from_str(alloc, text.as_str())?),
        _ => Err(wrong_type(alloc, label)),
    }
}
