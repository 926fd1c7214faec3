ghost use Rattle.std.specs.Prelude.{OnOk, map};
ghost use Rattle.cedar_data.specs.Rows.{separator_where};
ghost use Rattle.schema_syntax_tokens.specs.Laid.{laid};
ghost use Rattle.laws_written.specs.Printed.{path_pieces};
ghost use Rattle.laws_written.specs.PrintedDecls.{bracketed, parents_pieces, string_pieces, ref_pieces};
ghost use Rattle.schema_print_text.specs.Adds.{Adds};
ghost use Rattle.schema_print.specs.PrintedFragments.{paths_of_names, parent_type, printed_parent, printed_parents};

use cedar_data::{List, NonEmpty, Text};
use cedar_identifiers::{Eid, NameText};
use schema_json::ActionEntityUID;
use schema_print_text::{push, push_name, push_string};
use std::alloc::{AllocError, Global};

/// Adds the separator, where something stands before.
pub fn push_between(text: &mut Text, behind: bool, separator: &str) -> Result<(), AllocError>
    ensures { OnOk result (Adds text.old text.new (separator_where separator.now behind)) }
{
    if behind {
        push(text, separator)
    } else {
        Ok(())
    }
}

/// Adds the names in brackets, with `, ` separator_where two.
pub fn push_names<N: NameText>(
    text: &mut Text,
    alloc: Global,
    names: &[N],
) -> Result<(), AllocError>
    ensures { OnOk result (Adds text.old text.new
        (laid (bracketed path_pieces (paths_of_names N.components names.now)))) }
{
    push(text, "[")?;
    let mut behind = false;
    for name in names {
        push_between(text, behind, ", ")?;
        push_name(text, alloc, name)?;
        behind = true;
    }
    push(text, "]")
}

/// Adds ` in ` and the names in brackets, where there are any.
pub fn push_parents<N: NameText>(
    text: &mut Text,
    alloc: Global,
    names: &[N],
) -> Result<(), AllocError>
    ensures { OnOk result (Adds text.old text.new
        (laid (parents_pieces path_pieces (paths_of_names N.components names.now)))) }
{
    if names.is_empty() {
        return Ok(());
    }
    push(text, " in ")?;
    push_names(text, alloc, names)
}

/// Adds the ids in brackets, each as a string, with `, ` separator_where two.
pub fn push_choices(text: &mut Text, choices: &NonEmpty<Eid>) -> Result<(), AllocError>
    ensures { OnOk result (Adds text.old text.new (laid (bracketed string_pieces (map (λ c. c.0) choices.now)))) }
{
    push(text, "[")?;
    let mut behind = false;
    for choice in choices.iter() {
        push_between(text, behind, ", ")?;
        push_string(text, &choice.0)?;
        behind = true;
    }
    push(text, "]")
}

// Adds the name of an action's type, or `Action` where none is written.
fn push_action_type<N: NameText>(
    text: &mut Text,
    alloc: Global,
    ty: &Option<N>,
) -> Result<(), AllocError>
    ensures { OnOk result (Adds text.old text.new (laid (path_pieces (parent_type N.components ty.now)))) }
{
    match ty {
        Some(ty) => push_name(text, alloc, ty),
        None => push(text, "Action"),
    }
}

// Adds the action: the name of its type, or `Action` where none is written, then `::`, and its id as a string.
fn push_action<N: NameText>(
    text: &mut Text,
    alloc: Global,
    action: &ActionEntityUID<N>,
) -> Result<(), AllocError>
    ensures { OnOk result (Adds text.old text.new (laid (ref_pieces (printed_parent N.components action.now)))) }
{
    push_action_type(text, alloc, &action.ty)?;
    push(text, "::")?;
    push_string(text, &action.id)
}

/// Adds ` in ` and the actions in brackets, where there are any.
pub fn push_action_parents<N: NameText>(
    text: &mut Text,
    alloc: Global,
    parents: &Option<List<ActionEntityUID<N>>>,
) -> Result<(), AllocError>
    ensures { OnOk result (Adds text.old text.new
        (laid (parents_pieces ref_pieces (printed_parents N.components parents.now)))) }
{
    match parents {
        None => Ok(()),
        Some(parents) => push_actions(text, alloc, parents.as_slice()),
    }
}

// Adds ` in ` and the actions in brackets, where there are any.
fn push_actions<N: NameText>(
    text: &mut Text,
    alloc: Global,
    actions: &[ActionEntityUID<N>],
) -> Result<(), AllocError>
    ensures { OnOk result (Adds text.old text.new
        (laid (parents_pieces ref_pieces (map (printed_parent N.components) actions.now)))) }
{
    if actions.is_empty() {
        return Ok(());
    }
    push(text, " in [")?;
    let mut behind = false;
    for action in actions {
        push_between(text, behind, ", ")?;
        push_action(text, alloc, action)?;
        behind = true;
    }
    push(text, "]")
}
