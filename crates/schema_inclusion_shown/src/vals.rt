ghost use Rattle.std.specs.Prelude.{false, OnOk};
ghost use Rattle.schema_inclusion_values.specs.Seen.{value_of, entries_value};
ghost use Rattle.schema_inclusion_values.specs.Values.{Truth, Rec, Ext};
ghost use Rattle.schema_inclusion_shown.specs.Grown.{Adds};
ghost use Rattle.schema_inclusion_shown.specs.Members.{members_value};
ghost use Rattle.schema_inclusion_shown.specs.ValueTexts.{value_text, members_text, entries_text};

use crate::keys::{push, push_between, push_entity, push_key, push_number, push_string, push_text};
use cedar_data::Text;
use cedar_identifiers::UnreservedId;
use schema_inclusion_values::Val;
use std::alloc::{AllocError, Global};

// Adds the text of a truth value.
fn push_truth(text: &mut Text, truth: bool) -> Result<(), AllocError>
    ensures { OnOk result (Adds text.old text.new (value_text (Truth truth))) }
{
    if truth {
        push(text, "true")
    } else {
        push(text, "false")
    }
}

// Adds the text of the value of an extension type.
fn push_extension(text: &mut Text, name: &UnreservedId) -> Result<(), AllocError>
    ensures { OnOk result (Adds text.old text.new (value_text (Ext name.now.id.text))) }
{
    push_text(text, &name.id.text)?;
    push(text, "(..)")
}

/// Adds the text of a value.
#[cycle(push_val)]
pub fn push_val(text: &mut Text, alloc: Global, value: &Val) -> Result<(), AllocError>
    ensures { OnOk result (Adds text.old text.new (value_text (value_of value.now))) }
{
    match value {
        Val::Bool(truth) => push_truth(text, *truth),
        Val::Long(number) => push_number(text, *number),
        Val::Str(string) => push_string(text, string),
        Val::Ref(ty, id) => push_entity(text, alloc, ty, id),
        Val::Set(members) => {
            push(text, "[")?;
            push_members(text, alloc, members.as_slice())?;
            push(text, "]")
        }
        Val::Rec(attrs) => push_entries(text, alloc, attrs.as_slice()),
        Val::Ext(name) => push_extension(text, name),
    }
}

// Adds the texts of the members of a set.
#[cycle(push_val)]
fn push_members(text: &mut Text, alloc: Global, members: &[Val]) -> Result<(), AllocError>
    ensures { OnOk result (Adds text.old text.new (members_text false (members_value members.now))) }
{
    let mut behind = false;
    for member in members {
        push_between(text, behind)?;
        push_val(text, alloc, member)?;
        behind = true;
    }
    Ok(())
}

// Adds the texts of the attributes of a record.
#[cycle(push_val)]
fn push_attributes(text: &mut Text, alloc: Global, attrs: &[(Text, Val)]) -> Result<(), AllocError>
    ensures { OnOk result (Adds text.old text.new (entries_text false (entries_value attrs.now))) }
{
    let mut behind = false;
    for (name, value) in attrs {
        push_between(text, behind)?;
        push_key(text, name)?;
        push(text, ": ")?;
        push_val(text, alloc, value)?;
        behind = true;
    }
    Ok(())
}

/// Adds the text of the record with these attributes.
#[cycle(push_val)]
pub fn push_entries(text: &mut Text, alloc: Global, attrs: &[(Text, Val)]) -> Result<(), AllocError>
    ensures { OnOk result (Adds text.old text.new (value_text (Rec (entries_value attrs.now)))) }
{
    if attrs.is_empty() {
        return push(text, "{}");
    }
    push(text, "{ ")?;
    push_attributes(text, alloc, attrs)?;
    push(text, " }")
}
