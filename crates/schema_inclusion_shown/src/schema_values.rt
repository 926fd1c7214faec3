ghost use Rattle.std.specs.Prelude.{◌≡◌, true, false, IfOk, OnOk, map, codes};
ghost use Rattle.std.specs.Char.{is_ascii};
ghost use Rattle.std.specs.List.{list_all};
ghost use Rattle.cedar_data.specs.Rows.{row_behind};
ghost use Rattle.schema_inclusion_values.specs.Seen.{entries_value, parents_value, schema_value};
ghost use Rattle.schema_inclusion_shown.specs.Grown.{Adds};
ghost use Rattle.schema_inclusion_shown.specs.ValueTexts.{entity_text, record_behind, parents_text, schema_value_text};

use crate::keys::{push, push_between, push_entity, push_name};
use crate::vals::push_entries;
use cedar_data::{List, Text};
use cedar_identifiers::Name;
use schema_inclusion_values::{SchemaValue, Val};
use std::alloc::{AllocError, Global};

// Adds the words and the record with these attributes, where there are any.
fn push_record(
    text: &mut Text,
    alloc: Global,
    words: &str,
    attrs: &List<(Text, Val)>,
) -> Result<(), AllocError>
    requires { list_all is_ascii words.now ≡ true }
    ensures { OnOk result (Adds text.old text.new (record_behind words.now (entries_value attrs.now))) }
{
    let attrs = attrs.as_slice();
    if attrs.is_empty() {
        return Ok(());
    }
    push(text, words)?;
    push_entries(text, alloc, attrs)
}

// Adds the parents, with `, ` between two.
fn push_row(text: &mut Text, alloc: Global, parents: &[(Name, Text)]) -> Result<(), AllocError>
    ensures { OnOk result (Adds text.old text.new
        (row_behind (codes ", ") false (map entity_text (parents_value parents.now)))) }
{
    let mut behind = false;
    for (ty, id) in parents {
        push_between(text, behind)?;
        push_entity(text, alloc, ty, id)?;
        behind = true;
    }
    Ok(())
}

// Adds the parents, where there are any.
fn push_parents(text: &mut Text, alloc: Global, parents: &[(Name, Text)]) -> Result<(), AllocError>
    ensures { OnOk result (Adds text.old text.new (parents_text (parents_value parents.now))) }
{
    if parents.is_empty() {
        return Ok(());
    }
    push(text, " in [")?;
    push_row(text, alloc, parents)?;
    push(text, "]")
}

// Adds the text of a value that a schema can admit.
fn push_schema_value(text: &mut Text, alloc: Global, value: &SchemaValue) -> Result<(), AllocError>
    ensures { OnOk result (Adds text.old text.new (schema_value_text (schema_value value.now))) }
{
    match value {
        SchemaValue::Entity {
            ty,
            id,
            attrs,
            tags,
            parents,
        } => {
            push_entity(text, alloc, ty, id)?;
            push_parents(text, alloc, parents.as_slice())?;
            push_record(text, alloc, " with ", attrs)?;
            push_record(text, alloc, " tags ", tags)
        }
        SchemaValue::Request {
            action,
            principal,
            resource,
            context,
        } => {
            push(text, "request ")?;
            push_entity(text, alloc, &action.ty, &action.eid.0)?;
            push(text, " with principal ")?;
            push_name(text, alloc, principal)?;
            push(text, ", resource ")?;
            push_name(text, alloc, resource)?;
            push_record(text, alloc, ", context ", context)
        }
        SchemaValue::ActionIn { action, ancestor } => {
            push(text, "action ")?;
            push_entity(text, alloc, &action.ty, &action.eid.0)?;
            push(text, " in ")?;
            push_entity(text, alloc, &ancestor.ty, &ancestor.eid.0)
        }
    }
}

/// The text of a value that a schema can admit: an entity as `A::"a" in [G::""] with { x: 0 } tags { t: true }`, a
/// request as `request Action::"v" with principal A, resource B, context { x: 0 }`, and an action as
/// `action Action::"v" in Action::"w"`. Parts that are empty are left out.
pub fn schema_value_text(alloc: Global, value: &SchemaValue) -> Result<Text, AllocError>
    ensures { IfOk result (λ text. text ≡ schema_value_text (schema_value value.now)) }
{
    let mut text = Text::new(alloc);
    push_schema_value(&mut text, alloc, value)?;
    Ok(text)
}
