ghost use Rattle.std.specs.Prelude.{◌++◌, OnOk, true, codes, map};
ghost use Rattle.cedar_data.specs.Rows.{joined_by};
ghost use Rattle.cedar_identifiers.specs.Names.{name_text};
ghost use Rattle.cedar_names.specs.CanonicalText.{spaces, parents_text, context_text, applies_text, action_name_text};
ghost use Rattle.schema_build_types.specs.Content.{type_content, attributes_content, names_content, actions_in_order};
ghost use Rattle.schema_build_types.specs.Content.{action_content};
ghost use Rattle.schema_syntax_tokens.specs.Quotes.{quoted};
ghost use Rattle.schema_build_text.specs.Adds.{Adds};
ghost use Rattle.schema_build_text.specs.Readings.{plain_attributes, context_attributes, action_reading};
ghost use Rattle.schema_build_text.specs.Items.{action_declaration};

use crate::pushing::{deeper, push, push_spaces, push_string};
use crate::rows::{push_action_parents, push_names};
use crate::types::push_record;
use cedar_data::{Shared, Text};
use cedar_identifiers::Name;
use cedar_names::EntityUID;
use schema_build_types::{Type, ValidatorActionId, ValidatorActionKind};
use std::alloc::{AllocError, Global};

// Adds the record of these attributes, without a space in the braces where there are none.
fn push_attributes(
    text: &mut String,
    alloc: Global,
    base: usize,
    entries: &[(Text, (Type, bool))],
) -> Result<(), AllocError>
    ensures { OnOk result (Adds text.old text.new
        (context_text true base (plain_attributes (attributes_content entries.now)))) }
{
    if entries.is_empty() {
        push(text, "{}")
    } else {
        push_record(text, alloc, base, entries)
    }
}

// Adds the context.
fn push_context(
    text: &mut String,
    alloc: Global,
    base: usize,
    context: &Type,
) -> Result<(), AllocError>
    ensures { OnOk result (Adds text.old text.new
        (context_text true base (context_attributes (type_content context.now)))) }
{
    match context {
        Type::Record { attrs, .. } => push_attributes(text, alloc, base, attrs.as_slice()),
        Type::Never | Type::AnyBool | Type::True | Type::False => push(text, "{}"),
        Type::Long | Type::String | Type::Set { .. } => push(text, "{}"),
        Type::Entity { .. } | Type::AnyEntity | Type::Extension { .. } => push(text, "{}"),
    }
}

// Adds a line that begins so, with the names, a bracket and a comma.
fn push_names_line(
    text: &mut String,
    alloc: Global,
    base: usize,
    head: &str,
    names: &[Name],
) -> Result<(), AllocError>
    ensures { OnOk result (Adds text.old text.new (spaces base ++ (head.now ++ (joined_by (codes ", ") (map
        name_text (names_content names.now)) ++ codes "],\n")))) }
{
    push_spaces(text, base)?;
    push(text, head)?;
    push_names(text, alloc, names)?;
    push(text, "],\n")
}

// Adds what an action applies to, where it has both principals and resources.
fn push_applies(
    text: &mut String,
    alloc: Global,
    base: usize,
    principals: &[Name],
    resources: &[Name],
    context: &Type,
) -> Result<(), AllocError>
    ensures { OnOk result (Adds text.old text.new (applies_text true base (names_content principals.now)
        (names_content resources.now) (context_attributes (type_content context.now)))) }
{
    if principals.is_empty() {
        return Ok(());
    }
    if resources.is_empty() {
        return Ok(());
    }
    let inner = deeper(base)?;
    push(text, " appliesTo {\n")?;
    push_names_line(text, alloc, inner, "principal: [", principals)?;
    push_names_line(text, alloc, inner, "resource: [", resources)?;
    push_spaces(text, inner)?;
    push(text, "context: ")?;
    push_context(text, alloc, inner, context)?;
    push(text, ",\n")?;
    push_spaces(text, base)?;
    push(text, "}")
}

// Adds the name and the ancestors of an action.
fn push_head(
    text: &mut String,
    alloc: Global,
    uid: &EntityUID,
    ancestors: &[Shared<EntityUID>],
) -> Result<(), AllocError>
    ensures { OnOk result (Adds text.old text.new
        (codes "action " ++ (quoted uid.now.eid.0
        ++ parents_text (map action_name_text (actions_in_order ancestors.now))))) }
{
    push(text, "action ")?;
    push_string(text, &uid.eid.0)?;
    push_action_parents(text, alloc, ancestors)
}

// Adds what stands before the semicolon.
fn push_declaration(
    text: &mut String,
    alloc: Global,
    base: usize,
    uid: &EntityUID,
    action: &ValidatorActionId,
) -> Result<(), AllocError>
    ensures { OnOk result (Adds text.old text.new
        (action_declaration base (action_reading (action_content (uid.now, action.now))))) }
{
    let ancestors = action.ancestors.as_slice();
    match &action.kind {
        ValidatorActionKind::External => {
            push(text, "external ")?;
            push_head(text, alloc, uid, ancestors)?;
            Ok(())
        }
        ValidatorActionKind::Defined {
            principals,
            resources,
            context,
        } => {
            push_head(text, alloc, uid, ancestors)?;
            let principals = principals.as_slice();
            push_applies(text, alloc, base, principals, resources.as_slice(), context)
        }
    }
}

/// Adds the action on lines of its own, up to its semicolon.
pub fn push_action(
    text: &mut String,
    alloc: Global,
    base: usize,
    uid: &EntityUID,
    action: &ValidatorActionId,
) -> Result<(), AllocError>
    ensures { OnOk result (Adds text.old text.new
        (spaces base ++ action_declaration base (action_reading (action_content (uid.now, action.now))))) }
{
    push_spaces(text, base)?;
    push_declaration(text, alloc, base, uid, action)
}
