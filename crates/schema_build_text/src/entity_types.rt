ghost use Rattle.std.specs.Prelude.{◌++◌, OnOk, true, codes, map};
ghost use Rattle.std.specs.Option.{option_map};
ghost use Rattle.cedar_identifiers.specs.Names.{components_of, name_text};
ghost use Rattle.cedar_names.specs.CanonicalText.{basename, parents_text, list_text, shape_text, tags_text, spaces};
ghost use Rattle.schema_build_types.specs.Content.{type_content, attributes_content, names_content, entity_content};
ghost use Rattle.schema_syntax_tokens.specs.Quotes.{quoted};
ghost use Rattle.schema_build_text.specs.Adds.{Adds};
ghost use Rattle.schema_build_text.specs.Readings.{plain_type, plain_attributes, entity_reading};
ghost use Rattle.schema_build_text.specs.Items.{entity_declaration};

use crate::names::push_basename;
use crate::pushing::{push, push_spaces};
use crate::rows::{push_choices, push_name_parents};
use crate::types::{push_members, push_type};
use cedar_data::{Boxed, NonEmpty, Shared, Text};
use cedar_identifiers::{Eid, Name};
use schema_build_types::{Type, ValidatorEntityType, ValidatorEntityTypeKind};
use std::alloc::{AllocError, Global};

// Adds ` = ` and the record of the attributes, where there are any.
fn push_shape(
    text: &mut String,
    alloc: Global,
    base: usize,
    entries: &[(Text, (Type, bool))],
) -> Result<(), AllocError>
    ensures { OnOk result (Adds text.old text.new
        (shape_text true base (plain_attributes (attributes_content entries.now)))) }
{
    if entries.is_empty() {
        return Ok(());
    }
    push(text, " = {\n")?;
    push_members(text, alloc, base, entries)
}

// Adds ` tags ` and the type of the tags at no indentation, where there are tags.
fn push_tags(text: &mut String, alloc: Global, tags: &Option<Boxed<Type>>) -> Result<(), AllocError>
    ensures { OnOk result (Adds text.old text.new
        (tags_text true (option_map plain_type (option_map type_content tags.now)))) }
{
    match tags {
        None => Ok(()),
        Some(ty) => {
            push(text, " tags ")?;
            push_type(text, alloc, 0, ty.get())
        }
    }
}

// Adds a standard entity type up to its semicolon: its name, its ancestors, its attributes and its tags.
fn push_standard(
    text: &mut String,
    alloc: Global,
    base: usize,
    name: &Name,
    ancestors: &[Shared<Name>],
    entries: &[(Text, (Type, bool))],
    tags: &Option<Boxed<Type>>,
) -> Result<(), AllocError>
    ensures { OnOk result (Adds text.old text.new
        (codes "entity " ++ (basename (components_of name.now.name)
        ++ (parents_text (map name_text (names_content ancestors.now))
        ++ (shape_text true base (plain_attributes (attributes_content entries.now))
        ++ tags_text true (option_map plain_type (option_map type_content tags.now))))))) }
{
    push(text, "entity ")?;
    push_basename(text, &name.name)?;
    push_name_parents(text, alloc, ancestors)?;
    push_shape(text, alloc, base, entries)?;
    push_tags(text, alloc, tags)
}

// Adds an enum up to its semicolon: its name and its choices.
fn push_enum(text: &mut String, name: &Name, choices: &NonEmpty<Eid>) -> Result<(), AllocError>
    ensures { OnOk result (Adds text.old text.new
        (codes "entity " ++ (basename (components_of name.now.name)
        ++ (codes " enum " ++ list_text (map quoted (map (λ c. c.0) choices.now)))))) }
{
    push(text, "entity ")?;
    push_basename(text, &name.name)?;
    push(text, " enum ")?;
    push_choices(text, choices)
}

// Adds an external entity type up to its semicolon: its name and its ancestors.
fn push_external(
    text: &mut String,
    alloc: Global,
    name: &Name,
    ancestors: &[Shared<Name>],
) -> Result<(), AllocError>
    ensures { OnOk result (Adds text.old text.new (codes "external entity "
        ++ (basename (components_of name.now.name) ++ parents_text (map name_text (names_content ancestors.now))))) }
{
    push(text, "external entity ")?;
    push_basename(text, &name.name)?;
    push_name_parents(text, alloc, ancestors)
}

// Adds what stands before the semicolon.
fn push_declaration(
    text: &mut String,
    alloc: Global,
    base: usize,
    name: &Name,
    entity: &ValidatorEntityType,
) -> Result<(), AllocError>
    ensures { OnOk result (Adds text.old text.new
        (entity_declaration base (entity_reading (entity_content (name.now, entity.now))))) }
{
    let ancestors = entity.ancestors.as_slice();
    match &entity.kind {
        ValidatorEntityTypeKind::Standard {
            attributes,
            tags,
            ..
        } => push_standard(
            text,
            alloc,
            base,
            name,
            ancestors,
            attributes.as_slice(),
            tags,
        ),
        ValidatorEntityTypeKind::Enum(choices) => push_enum(text, name, choices),
        ValidatorEntityTypeKind::External => push_external(text, alloc, name, ancestors),
    }
}

/// Adds the entity type on lines of its own, up to its semicolon.
pub fn push_entity_type(
    text: &mut String,
    alloc: Global,
    base: usize,
    name: &Name,
    entity: &ValidatorEntityType,
) -> Result<(), AllocError>
    ensures { OnOk result (Adds text.old text.new
        (spaces base ++ entity_declaration base (entity_reading (entity_content (name.now, entity.now))))) }
{
    push_spaces(text, base)?;
    push_declaration(text, alloc, base, name, entity)
}
