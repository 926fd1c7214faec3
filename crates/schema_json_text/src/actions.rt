// Actions.
ghost use Rattle.std.specs.Prelude.{OnOk, IfOk, map, string_bytes, codes, true};
ghost use Rattle.std.specs.List.Sorted.{IsStrictlySortedBy};
ghost use Rattle.cedar_data.specs.Text.{text_cmp};
ghost use Rattle.schema_json_values.specs.TypeValues.{object_of};
ghost use Rattle.schema_json_values.specs.FragmentValues.{attribute_name_entry, applies_to_value, action_id_value};
ghost use Rattle.schema_json_values.specs.FragmentValues.{action_value, list_of};
ghost use Rattle.schema_json_quotes.specs.Adds.{Adds};
ghost use Rattle.schema_json_text.specs.AddsValue.{AddsValue};
ghost use Rattle.schema_json_text.specs.Members.{AddsMember, ahead, shape_value, nulls_value, applies_value};
ghost use Rattle.schema_json_text.specs.Members.{parents_value};

use crate::annotations::push_first_annotations;
use crate::entity_types::push_external;
use crate::leaves::{push_comma, push_later, push_name, push_names};
use crate::members::{Member, push_object};
use crate::types::push_type;
use cedar_data::{List, Set, Text};
use cedar_identifiers::NameText;
use schema_json::{ActionEntityUID, ActionType, ApplySpec, Type};
use schema_json_quotes::pushing::{push, push_char};
use schema_json_quotes::quotes::push_quoted;
use std::alloc::{AllocError, Global};

// Adds the context, where it is not the empty record, ahead of a further member.
fn push_context<N: NameText>(
    out: &mut String,
    alloc: Global,
    context: &Type<N>,
) -> Result<(), AllocError>
    ensures { OnOk result (Adds out.old out.new (ahead (codes "context") (shape_value N.components context.now))) }
{
    if context.is_empty_record() {
        return Ok(());
    }
    push(out, "\"context\":")?;
    push_type(out, alloc, context)?;
    push_char(out, ',')
}

fn push_apply_spec<N: NameText>(
    out: &mut String,
    alloc: Global,
    applies_to: &ApplySpec<N>,
) -> Result<(), AllocError>
    ensures { OnOk result (AddsValue out.old out.new (applies_to_value N.components applies_to.now)) }
{
    push_char(out, '{')?;
    push_context(out, alloc, &applies_to.context.0)?;
    push(out, "\"principalTypes\":")?;
    push_names(out, alloc, applies_to.principal_types.as_slice())?;
    push(out, ",\"resourceTypes\":")?;
    push_names(out, alloc, applies_to.resource_types.as_slice())?;
    push_char(out, '}')
}

// Adds what the action applies to, where that is written.
fn push_applies_to<N: NameText>(
    out: &mut String,
    alloc: Global,
    later: bool,
    applies_to: &Option<ApplySpec<N>>,
) -> Result<bool, AllocError>
    ensures { IfOk result (AddsMember later (codes "appliesTo") (applies_value N.components applies_to.now)
        (string_bytes out.old) (string_bytes out.new)) }
{
    match applies_to {
        Some(applies_to) => {
            push_later(out, later, "\"appliesTo\":")?;
            push_apply_spec(out, alloc, applies_to)?;
            Ok(true)
        }
        None => Ok(later),
    }
}

// A name of an attribute, beside null.
impl Member for Text {
    ghost entry = { attribute_name_entry };

    fn key(&self) -> &str {
        self.as_str()
    }

    fn push_value(&self, out: &mut String, alloc: Global) -> Result<(), AllocError> {
        push(out, "null")
    }
}

// Adds the object of the names, each with null.
fn push_nulls(out: &mut String, alloc: Global, names: &[Text]) -> Result<(), AllocError>
    requires { IsStrictlySortedBy text_cmp names.now }
    ensures { OnOk result (AddsValue out.old out.new (object_of (map attribute_name_entry names.now))) }
{
    push_object(out, alloc, names)
}

// Adds the names of the attributes, where any were written.
fn push_attribute_names(
    out: &mut String,
    alloc: Global,
    later: bool,
    attributes: &Option<Set<Text>>,
) -> Result<bool, AllocError>
    ensures { IfOk result (AddsMember later (codes "attributes") (nulls_value attributes.now) (string_bytes out.old)
        (string_bytes out.new)) }
{
    match attributes {
        Some(names) => {
            push_later(out, later, "\"attributes\":")?;
            push_nulls(out, alloc, names.as_slice())?;
            Ok(true)
        }
        None => Ok(later),
    }
}

fn push_action_id<N: NameText>(
    out: &mut String,
    alloc: Global,
    action: &ActionEntityUID<N>,
) -> Result<(), AllocError>
    ensures { OnOk result (AddsValue out.old out.new (action_id_value N.components action.now)) }
{
    push(out, "{\"id\":")?;
    push_quoted(out, action.id.as_str())?;
    match &action.ty {
        Some(ty) => {
            push(out, ",\"type\":")?;
            push_name(out, alloc, ty)?;
            push_char(out, '}')
        }
        None => push_char(out, '}'),
    }
}

fn push_action_ids<N: NameText>(
    out: &mut String,
    alloc: Global,
    actions: &[ActionEntityUID<N>],
) -> Result<(), AllocError>
    ensures { OnOk result (AddsValue out.old out.new (list_of (map (action_id_value N.components) actions.now))) }
{
    push_char(out, '[')?;
    let mut later = false;
    for action in actions {
        push_comma(out, later)?;
        push_action_id(out, alloc, action)?;
        later = true;
    }
    push_char(out, ']')
}

// Adds the parents, where they are written.
fn push_parents<N: NameText>(
    out: &mut String,
    alloc: Global,
    later: bool,
    parents: &Option<List<ActionEntityUID<N>>>,
) -> Result<bool, AllocError>
    ensures { IfOk result (AddsMember later (codes "memberOf") (parents_value N.components parents.now)
        (string_bytes out.old) (string_bytes out.new)) }
{
    match parents {
        Some(actions) => {
            push_later(out, later, "\"memberOf\":")?;
            push_action_ids(out, alloc, actions.as_slice())?;
            Ok(true)
        }
        None => Ok(later),
    }
}

/// Adds the JSON text of an action.
pub fn push_action<N: NameText>(
    out: &mut String,
    alloc: Global,
    action: &ActionType<N>,
) -> Result<(), AllocError>
    ensures { OnOk result (AddsValue out.old out.new (action_value N.components action.now)) }
{
    push_char(out, '{')?;
    let later = push_first_annotations(out, &action.annotations)?;
    let later = push_applies_to(out, alloc, later, &action.applies_to)?;
    let later = push_attribute_names(out, alloc, later, &action.attributes)?;
    let later = push_external(out, later, action.external)?;
    let _later = push_parents(out, alloc, later, &action.member_of)?;
    push_char(out, '}')
}
