ghost use Rattle.std.specs.Prelude.{◌≡◌, OnOk, IfOk, map};
ghost use Rattle.std.specs.Option.{option_copied};
ghost use Rattle.std.specs.Str.{encode_utf8_all};
ghost use Rattle.cedar_identifiers.specs.Names.{components_of};
ghost use Rattle.cedar_names.specs.CanonicalText.{canonical_text, namespace};
ghost use Rattle.schema_build_types.specs.Content.{SchemaContent};
ghost use Rattle.schema_build_text.specs.Adds.{Adds};
ghost use Rattle.schema_build_text.specs.Items.{item_content, break_text, end_text, namespace_behind};
ghost use Rattle.schema_build_text.specs.Readings.{schema_reading};
ghost use Rattle.schema_build_text.specs.Walk.{walk};

use crate::items::{Item, name_of, push_item};
use crate::names::{base_of, push_break, push_closing, push_opening};
use cedar_data::Text;
use cedar_identifiers::InternalName;
use std::alloc::{AllocError, Global};

// The room that is made for each item before the text is written.
const BYTES_OF_AN_ITEM: usize = 64;

// Adds the end of the item before, where there is one, and what stands before the item.
fn push_before(
    text: &mut String,
    before: Option<&InternalName>,
    name: &InternalName,
) -> Result<(), AllocError>
    ensures { OnOk result (Adds text.old text.new (break_text (namespace_behind (option_copied before.entry))
        (namespace (components_of name.now)))) }
{
    match before {
        None => push_opening(text, name),
        Some(before) => push_break(text, before, name),
    }
}

// Adds the end of the last item and what stands behind it, where there is one.
fn push_after(text: &mut String, last: Option<&InternalName>) -> Result<(), AllocError>
    ensures { OnOk result (Adds text.old text.new (end_text (namespace_behind (option_copied last.entry)))) }
{
    match last {
        None => Ok(()),
        Some(last) => push_closing(text, last),
    }
}

/// The text of items that stand in the order of the walk.
pub fn print_items(alloc: Global, items: &[Item<'_>]) -> Result<Text, AllocError>
    ensures { IfOk result (λ text. (c : SchemaContent) → map item_content items.now ≡ walk c
        → encode_utf8_all text ≡ canonical_text (schema_reading c)) }
{
    let mut text = String::with_capacity(alloc, items.len().saturating_mul(BYTES_OF_AN_ITEM))?;
    let mut before = None;
    for item in items {
        let name = name_of(item);
        push_before(&mut text, before, name)?;
        push_item(&mut text, alloc, base_of(name), item)?;
        before = Some(name);
    }
    push_after(&mut text, before)?;
    Ok(Text::from_string(text))
}
