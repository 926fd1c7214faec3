// Entity types.
ghost use Rattle.std.specs.Prelude.{◌≡◌, [], None, false, codes, IfOk};
ghost use Rattle.serde_json.specs.Data.{object};
ghost use Rattle.serde_json.specs.View.{view, items_view, members_view};
ghost use Rattle.serde_json.specs.Find.{get_member};
ghost use Rattle.schema_json_shapes.specs.Walk.{entity_type, names, texts, text, typed, demands, item_demands};
ghost use Rattle.schema_json_shapes.specs.Walk.{object_demands, empty_enum, is_empty_list};
ghost use Rattle.schema_json_shapes.specs.Said.{IsNamed, IsChoice, IsList, IsListOrNone, AreItems, IsOptional};
ghost use Rattle.schema_json_shapes.specs.Shapes.{IsShapeOrNone, IsEntityType, IsEntityTypeIn};
ghost use Rattle.schema_json_shapes.specs.EntityKinds.{kind_from};
ghost use Rattle.schema_json_shapes.specs.Reads.{ReadsValue, Any, field_demands};

use crate::annotations::annotations_at;
use crate::conflicts::{check_choices, check_enum, check_external_type};
use crate::fields::{Members, at, check_fields};
use crate::leaves::{flag_at, read_text, wrong_type};
use crate::names::read_names;
use crate::shape_fault::ShapeFault;
use crate::tables::entity_type_fields;
use crate::types::{boxed_type_at, type_at};
use crate::words::TypeSite;
use cedar_data::{Boxed, List, NonEmpty};
use cedar_identifiers::{Eid, RawName};
use schema_json::{AttributesOrContext, EntityType, EntityTypeKind, StandardEntityType, Type};
use serde_json::Value;
use std::alloc::{AllocError, Global};

/// The entity type that a value says, or its first fault, under the name `label`.
pub fn read_entity_type(
    alloc: Global,
    value: &Value,
    label: &str,
) -> Result<EntityType<RawName>, ShapeFault>
    ensures { ReadsValue result (demands entity_type label.now (view value.now)) (IsEntityType (view value.now)) }
{
    match value.as_object() {
        Some(members) => read_members(alloc, members),
        None => Err(wrong_type(alloc, label)),
    }
}

fn read_members(alloc: Global, members: &Members) -> Result<EntityType<RawName>, ShapeFault>
    ensures { let ms = members_view members.now.entries in
        ReadsValue result (demands entity_type [] (object ms)) (IsEntityTypeIn ms) }
{
    let _ = members.len();
    check_members(alloc, members)?;
    let annotations = annotations_at(alloc, members)?;
    let choices = choices_at(alloc, members)?;
    let external = flag_at(alloc, members, "external", false)?;
    let member_of_types = parents_at(alloc, members)?;
    let shape = shape_at(alloc, members, "shape")?;
    let tags = boxed_type_at(alloc, members, "tags")?;
    let kind = kind_of(alloc, choices, member_of_types, shape, tags)?;
    Ok(EntityType {
        kind,
        external,
        annotations,
        loc: None,
    })
}

// What the object itself must keep.
fn check_members(alloc: Global, members: &Members) -> Result<(), ShapeFault>
    ensures { ReadsValue result (object_demands entity_type [] (members_view members.now.entries)) Any }
{
    check_fields(alloc, entity_type_fields(), members)?;
    check_external_type(alloc, members)?;
    check_enum(alloc, members)?;
    check_choices(members)
}

fn kind_of(
    alloc: Global,
    choices: Option<NonEmpty<Eid>>,
    member_of_types: List<RawName>,
    shape: Type<RawName>,
    tags: Option<Boxed<Type<RawName>>>,
) -> Result<EntityTypeKind<RawName>, AllocError>
    ensures { IfOk result (λ kind. kind ≡ kind_from choices member_of_types shape tags) }
{
    match choices {
        Some(choices) => Ok(EntityTypeKind::Enum {
            choices: Boxed::new(alloc, choices)?,
        }),
        None => {
            let standard = StandardEntityType {
                member_of_types,
                shape: AttributesOrContext(shape),
                tags,
            };
            Ok(EntityTypeKind::Standard(Boxed::new(alloc, standard)?))
        }
    }
}

/// The type in a field, and the empty record where it is absent.
pub fn shape_at(alloc: Global, members: &Members, name: &str) -> Result<Type<RawName>, ShapeFault>
    ensures { let o = get_member name.now (members_view members.now.entries) in
        ReadsValue result (field_demands (typed TypeSite.Plain) name.now o) (IsShapeOrNone o) }
{
    match type_at(alloc, members, name)? {
        Some(ty) => Ok(ty),
        None => Ok(AttributesOrContext::default(alloc).into_inner()),
    }
}

/// The names of the parents, none where they are absent.
pub fn parents_at(alloc: Global, members: &Members) -> Result<List<RawName>, ShapeFault>
    ensures { let o = get_member (codes "memberOfTypes") (members_view members.now.entries) in
        ReadsValue result (field_demands names (codes "memberOfTypes") o) (IsListOrNone IsNamed o) }
{
    match at(members, "memberOfTypes") {
        Some(value) => read_names(alloc, value, "memberOfTypes"),
        None => Ok(List::new(alloc)),
    }
}

fn choices_at(alloc: Global, members: &Members) -> Result<Option<NonEmpty<Eid>>, ShapeFault>
    requires { empty_enum (get_member (codes "enum") (members_view members.now.entries)) ≡ None }
    ensures { let o = get_member (codes "enum") (members_view members.now.entries) in
        ReadsValue result (field_demands texts (codes "enum") o) (IsOptional (IsList IsChoice) o) }
{
    match at(members, "enum") {
        Some(value) => Ok(Some(read_enum(alloc, value)?)),
        None => Ok(None),
    }
}

// The choices, of which there is at least one.
fn read_enum(alloc: Global, value: &Value) -> Result<NonEmpty<Eid>, ShapeFault>
    requires { is_empty_list (view value.now) ≡ false }
    ensures { ReadsValue result (demands texts (codes "enum") (view value.now)) (IsList IsChoice (view value.now)) }
{
    match value.as_array() {
        Some(items) => {
            let choices = read_choices(alloc, items)?;
            match NonEmpty::from_vec(choices) {
                Some(choices) => Ok(choices),
                None => unreachable!(),
            }
        }
        None => Err(wrong_type(alloc, "enum")),
    }
}

fn read_choices(alloc: Global, items: &Vec<Value>) -> Result<Vec<Eid>, ShapeFault>
    ensures { ReadsValue result (item_demands text (codes "enum") (items_view items.now.items))
        (λ choices. AreItems IsChoice (items_view items.now.items) choices.items) }
{
    let mut choices = Vec::new(alloc);
    for item in items {
        let text = read_text(alloc, item, "enum")?;
        choices.push(Eid(text))?;
    }
    Ok(choices)
}
