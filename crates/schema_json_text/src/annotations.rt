// Annotations.
ghost use Rattle.std.specs.Prelude.{false, OnOk, IfOk, map, string_bytes, codes};
ghost use Rattle.std.specs.Map.{keys_of};
ghost use Rattle.std.specs.List.Sorted.{IsStrictlySortedBy};
ghost use Rattle.cedar_data.specs.Text.{text_cmp};
ghost use Rattle.schema_json_values.specs.TypeValues.{object_of, annotation_entry, text_or_null};
ghost use Rattle.schema_json_quotes.specs.Adds.{Adds};
ghost use Rattle.schema_json_text.specs.AddsValue.{AddsValue};
ghost use Rattle.schema_json_text.specs.Members.{annotations_ahead, annotations_value, AddsMember};

use crate::leaves::push_key;
use cedar_data::Text;
use cedar_identifiers::{Annotations, AnyId};
use schema_json_quotes::pushing::{push, push_char};
use schema_json_quotes::quotes::push_quoted;
use std::alloc::AllocError;

// Adds a text, or null.
fn push_text_or_null(out: &mut String, text: &Option<Text>) -> Result<(), AllocError>
    ensures { OnOk result (AddsValue out.old out.new (text_or_null text.now)) }
{
    match text {
        Some(text) => push_quoted(out, text.as_str()),
        None => push(out, "null"),
    }
}

// Adds the object of the annotations.
fn push_entries(out: &mut String, entries: &[(AnyId, Option<Text>)]) -> Result<(), AllocError>
    requires { IsStrictlySortedBy (λ x y. text_cmp x.text y.text) (keys_of entries.now) }
    ensures { OnOk result (AddsValue out.old out.new (object_of (map annotation_entry entries.now))) }
{
    push_char(out, '{')?;
    let mut later = false;
    for (key, text) in entries {
        push_key(out, later, key.as_str())?;
        push_text_or_null(out, text)?;
        later = true;
    }
    push_char(out, '}')
}

/// Adds the annotations, where there are any, and whether there are.
pub fn push_first_annotations(
    out: &mut String,
    annotations: &Annotations,
) -> Result<bool, AllocError>
    ensures { IfOk result (AddsMember false (codes "annotations") (annotations_value annotations.now.0)
        (string_bytes out.old) (string_bytes out.new)) }
{
    let entries = annotations.0.as_slice();
    if entries.len() == 0 {
        return Ok(false);
    }
    push(out, "\"annotations\":")?;
    push_entries(out, entries)?;
    Ok(true)
}

/// Adds the annotations, where there are any, ahead of a further member.
pub fn push_annotations(out: &mut String, annotations: &Annotations) -> Result<(), AllocError>
    ensures { OnOk result (Adds out.old out.new (annotations_ahead annotations.now.0)) }
{
    let there = push_first_annotations(out, annotations)?;
    if there {
        return push_char(out, ',');
    }
    Ok(())
}
