ghost use Rattle.std.specs.Prelude.{OnOk, true, map, codes};
ghost use Rattle.cedar_data.specs.Rows.{row_behind};
ghost use Rattle.schema_syntax_tokens.specs.Laid.{laid};
ghost use Rattle.schema_print_text.specs.Adds.{Adds};
ghost use Rattle.schema_print.specs.RowsOfTexts.{head_text};
ghost use Rattle.schema_print.specs.PrintedFragments.{common_type_pieces, entity_pieces, action_pieces, items_pieces};

use crate::bodies::{push_action_body, push_entity_body};
use crate::lists::push_between;
use cedar_data::Text;
use cedar_identifiers::{Annotations, NameText, UnreservedId};
use schema_json::{ActionType, CommonType, CommonTypeId, EntityType, NamespaceDefinition};
use schema_print_text::{push, push_notes, push_spaces, push_string, push_type};
use std::alloc::{AllocError, Global};

// Adds the annotations on lines of their own, and begins the line below them.
fn push_head(
    text: &mut Text,
    base: usize,
    annotations: &Annotations,
    external: bool,
    keyword: &str,
) -> Result<(), AllocError>
    ensures { OnOk result (Adds text.old text.new (head_text base annotations.now.0 external keyword.now)) }
{
    push_notes(text, base, annotations)?;
    push_spaces(text, base)?;
    push_between(text, external, "external ")?;
    push(text, keyword)
}

// Adds the common types, each behind an empty line, the first too where something stands before it.
fn push_commons<N: NameText>(
    text: &mut Text,
    alloc: Global,
    base: usize,
    behind: bool,
    commons: &[(CommonTypeId, CommonType<N>)],
) -> Result<(), AllocError>
    ensures { OnOk result (Adds text.old text.new
        (row_behind (codes "\n") behind (map (λ c. laid (common_type_pieces N.components true base c)) commons.now))) }
{
    let mut behind = behind;
    for (name, common) in commons {
        push_between(text, behind, "\n")?;
        push_head(text, base, &common.annotations, false, "type ")?;
        push(text, name.as_unreserved().as_str())?;
        push(text, " = ")?;
        push_type(text, alloc, base, &common.ty)?;
        push(text, ";\n")?;
        behind = true;
    }
    Ok(())
}

// Adds the entity types, each behind an empty line, the first too where something stands before it.
fn push_entity_types<N: NameText>(
    text: &mut Text,
    alloc: Global,
    base: usize,
    behind: bool,
    entity_types: &[(UnreservedId, EntityType<N>)],
) -> Result<(), AllocError>
    ensures { OnOk result (Adds text.old text.new
        (row_behind (codes "\n") behind (map (λ e. laid (entity_pieces N.components true base e)) entity_types.now))) }
{
    let mut behind = behind;
    for (name, entity_type) in entity_types {
        push_between(text, behind, "\n")?;
        push_head(
            text,
            base,
            &entity_type.annotations,
            entity_type.external,
            "entity ",
        )?;
        push(text, name.as_str())?;
        push_entity_body(text, alloc, base, entity_type)?;
        push(text, ";\n")?;
        behind = true;
    }
    Ok(())
}

// Adds the actions, each behind an empty line, the first too where something stands before it.
fn push_actions<N: NameText>(
    text: &mut Text,
    alloc: Global,
    base: usize,
    behind: bool,
    actions: &[(Text, ActionType<N>)],
) -> Result<(), AllocError>
    ensures { OnOk result (Adds text.old text.new
        (row_behind (codes "\n") behind (map (λ a. laid (action_pieces N.components true base a)) actions.now))) }
{
    let mut behind = behind;
    for (id, action) in actions {
        push_between(text, behind, "\n")?;
        push_head(text, base, &action.annotations, action.external, "action ")?;
        push_string(text, id)?;
        push_action_body(text, alloc, base, action)?;
        push(text, ";\n")?;
        behind = true;
    }
    Ok(())
}

/// Adds the items of a namespace at this indentation, with an empty line between two: the common types, the entity
/// types, and the actions.
pub fn push_items<N: NameText>(
    text: &mut Text,
    alloc: Global,
    base: usize,
    namespace: &NamespaceDefinition<N>,
) -> Result<(), AllocError>
    ensures { OnOk result (Adds text.old text.new (laid (items_pieces N.components true base namespace.now))) }
{
    let commons = namespace.common_types.as_slice();
    let entity_types = namespace.entity_types.as_slice();
    let begun = !commons.is_empty();
    let filled = begun | !entity_types.is_empty();
    push_commons(text, alloc, base, false, commons)?;
    push_entity_types(text, alloc, base, begun, entity_types)?;
    push_actions(text, alloc, base, filled, namespace.actions.as_slice())
}
