ghost use Rattle.std.specs.Prelude.{Some, OnOk, true};
ghost use Rattle.std.specs.Option.{option_map};
ghost use Rattle.schema_syntax_tokens.specs.Laid.{laid};
ghost use Rattle.laws_written.specs.PrintedDecls.{tags_pieces};
ghost use Rattle.schema_print_text.specs.Adds.{Adds};
ghost use Rattle.schema_print_text.specs.PrintedTypes.{printed_type};
ghost use Rattle.schema_print.specs.RowsOfTexts.{names_line_text};
ghost use Rattle.schema_print.specs.PrintedFragments.{paths_of_names, shape_type_pieces, context_type_pieces};
ghost use Rattle.schema_print.specs.PrintedFragments.{standard_pieces, entity_body_pieces, spec_pieces};
ghost use Rattle.schema_print.specs.PrintedFragments.{action_body_pieces};

use crate::lists::{push_action_parents, push_choices, push_names, push_parents};
use cedar_data::{Boxed, Text};
use cedar_identifiers::NameText;
use schema_json::{ActionType, ApplySpec, EntityType, EntityTypeKind, StandardEntityType, Type};
use schema_print_text::{deeper, has_no_attributes, push, push_spaces, push_type};
use std::alloc::{AllocError, Global};

// Adds ` = ` and the shape of an entity type, but nothing for a record without attributes.
fn push_shape<N: NameText>(
    text: &mut Text,
    alloc: Global,
    base: usize,
    shape: &Type<N>,
) -> Result<(), AllocError>
    ensures { OnOk result (Adds text.old text.new
        (laid (shape_type_pieces true base (printed_type N.components shape.now)))) }
{
    if has_no_attributes(shape) {
        return Ok(());
    }
    push(text, " = ")?;
    push_type(text, alloc, base, shape)
}

// Adds the type of a context, without a space in the braces of a record without attributes.
fn push_context<N: NameText>(
    text: &mut Text,
    alloc: Global,
    base: usize,
    context: &Type<N>,
) -> Result<(), AllocError>
    ensures { OnOk result (Adds text.old text.new
        (laid (context_type_pieces true base (printed_type N.components context.now)))) }
{
    if has_no_attributes(context) {
        push(text, "{}")
    } else {
        push_type(text, alloc, base, context)
    }
}

// Adds ` tags ` and the type of the tags at no indentation, where there are tags.
fn push_tags<N: NameText>(
    text: &mut Text,
    alloc: Global,
    tags: &Option<Boxed<Type<N>>>,
) -> Result<(), AllocError>
    ensures { OnOk result (Adds text.old text.new
        (laid (tags_pieces true (option_map (printed_type N.components) tags.now)))) }
{
    match tags {
        None => Ok(()),
        Some(ty) => {
            push(text, " tags ")?;
            push_type(text, alloc, 0, ty.get())
        }
    }
}

/// Adds the parents, the attributes and the tags of an entity type, each where it has some.
pub fn push_standard<N: NameText>(
    text: &mut Text,
    alloc: Global,
    base: usize,
    standard: &StandardEntityType<N>,
) -> Result<(), AllocError>
    ensures { OnOk result (Adds text.old text.new (laid (standard_pieces N.components true base standard.now))) }
{
    push_parents(text, alloc, standard.member_of_types.as_slice())?;
    push_shape(text, alloc, base, &standard.shape.0)?;
    push_tags(text, alloc, &standard.tags)
}

/// Adds what stands between the name of an entity type and the semicolon. Of an external one these are the parents.
pub fn push_entity_body<N: NameText>(
    text: &mut Text,
    alloc: Global,
    base: usize,
    entity_type: &EntityType<N>,
) -> Result<(), AllocError>
    ensures { OnOk result (Adds text.old text.new (laid (entity_body_pieces N.components true base entity_type.now))) }
{
    match &entity_type.kind {
        EntityTypeKind::Standard(standard) => {
            let standard = standard.get();
            if entity_type.external {
                push_parents(text, alloc, standard.member_of_types.as_slice())
            } else {
                push_standard(text, alloc, base, standard)
            }
        }
        EntityTypeKind::Enum { choices } => {
            if entity_type.external {
                return Ok(());
            }
            push(text, " enum ")?;
            push_choices(text, choices.get())
        }
    }
}

// Adds a line that begins so, with the names in brackets and a comma.
fn push_names_line<N: NameText>(
    text: &mut Text,
    alloc: Global,
    base: usize,
    head: &str,
    names: &[N],
) -> Result<(), AllocError>
    ensures { OnOk result (Adds text.old text.new
        (names_line_text base head.now (paths_of_names N.components names.now))) }
{
    push_spaces(text, base)?;
    push(text, head)?;
    push_names(text, alloc, names)?;
    push(text, ",\n")
}

// Adds what an action applies to, where it has both principals and resources.
fn push_targets<N: NameText>(
    text: &mut Text,
    alloc: Global,
    base: usize,
    spec: &ApplySpec<N>,
) -> Result<(), AllocError>
    ensures { OnOk result (Adds text.old text.new (laid (spec_pieces N.components true base (Some spec.now)))) }
{
    let principals = spec.principal_types.as_slice();
    let resources = spec.resource_types.as_slice();
    if principals.is_empty() {
        return Ok(());
    }
    if resources.is_empty() {
        return Ok(());
    }
    let inner = deeper(base)?;
    push(text, " appliesTo {\n")?;
    push_names_line(text, alloc, inner, "principal: ", principals)?;
    push_names_line(text, alloc, inner, "resource: ", resources)?;
    push_spaces(text, inner)?;
    push(text, "context: ")?;
    push_context(text, alloc, inner, &spec.context.0)?;
    push(text, ",\n")?;
    push_spaces(text, base)?;
    push(text, "}")
}

/// Adds what stands between the name of an action and the semicolon. Of an external one these are the parents.
pub fn push_action_body<N: NameText>(
    text: &mut Text,
    alloc: Global,
    base: usize,
    action: &ActionType<N>,
) -> Result<(), AllocError>
    ensures { OnOk result (Adds text.old text.new (laid (action_body_pieces N.components true base action.now))) }
{
    push_action_parents(text, alloc, &action.member_of)?;
    if action.external {
        return Ok(());
    }
    match &action.applies_to {
        None => Ok(()),
        Some(spec) => push_targets(text, alloc, base, spec),
    }
}
