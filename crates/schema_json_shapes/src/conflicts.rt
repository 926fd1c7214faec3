// Fields that may not stand side by side.
ghost use Rattle.std.specs.Prelude.{◌≡◌, [], ◌∷◌, false, IfOk, map, codes};
ghost use Rattle.std.specs.Str.{chars};
ghost use Rattle.serde_json.specs.View.{view, members_view};
ghost use Rattle.serde_json.specs.Find.{get_member};
ghost use Rattle.schema_json_shapes.specs.Seen.{name_texts};
ghost use Rattle.schema_json_shapes.specs.Walk.{unless, present, flag_or, is_there, is_given, is_empty_list};
ghost use Rattle.schema_json_shapes.specs.Walk.{has_members, external_conflict, enum_conflict, empty_enum};
ghost use Rattle.schema_json_shapes.specs.Walk.{empty_annotated, not_external_type, not_external_action};
ghost use Rattle.schema_json_shapes.specs.Reads.{ReadsValue, Any};

use crate::fields::{Members, at, given_at};
use crate::shape_fault::ShapeFault;
use cedar_data::{NonEmpty, Text};
use serde_json::Value;
use std::alloc::{AllocError, Global};

// Whether the member is there.
fn is_there(members: &Members, name: &str) -> bool
    ensures { result ≡ is_there (get_member name.now (members_view members.now.entries)) }
{
    at(members, name).is_some()
}

// Whether the member is there, and is not null.
fn is_given(members: &Members, name: &str) -> bool
    ensures { result ≡ is_given (get_member name.now (members_view members.now.entries)) }
{
    given_at(members, name).is_some()
}

// Those of the fields that the object has.
fn there(alloc: Global, members: &Members, fields: &[&str]) -> Result<Vec<Text>, AllocError>
    ensures { IfOk result (λ found. found.items
        ≡ map chars (present is_there (name_texts fields.now) (members_view members.now.entries))) }
{
    let mut found = Vec::new(alloc);
    for field in fields {
        if is_there(members, field) {
            found.push(Text::from_str(alloc, field)?)?;
        }
    }
    Ok(found)
}

// Those of the fields that the object has with another value than null.
fn given(alloc: Global, members: &Members, fields: &[&str]) -> Result<Vec<Text>, AllocError>
    ensures { IfOk result (λ found. found.items
        ≡ map chars (present is_given (name_texts fields.now) (members_view members.now.entries))) }
{
    let mut found = Vec::new(alloc);
    for field in fields {
        if is_given(members, field) {
            found.push(Text::from_str(alloc, field)?)?;
        }
    }
    Ok(found)
}

// Whether the object has `external: true`.
fn is_external(members: &Members) -> bool
    ensures { result ≡ flag_or false (get_member (codes "external") (members_view members.now.entries)) }
{
    match at(members, "external") {
        Some(Value::Bool(b)) => *b,
        _ => false,
    }
}

/// Refuses what an external entity type may not have.
pub fn check_external_type(alloc: Global, members: &Members) -> Result<(), ShapeFault>
    ensures { let ms = members_view members.now.entries in
        ReadsValue result (unless (external_conflict is_there not_external_type ms (get_member (codes "external") ms))
        ∷ []) Any }
{
    if !is_external(members) {
        return Ok(());
    }
    match NonEmpty::from_vec(there(alloc, members, &["shape", "tags", "enum"])?) {
        Some(fields) => Err(ShapeFault::ExternalConflict(fields)),
        None => Ok(()),
    }
}

/// Refuses what an external action may not have.
pub fn check_external_action(alloc: Global, members: &Members) -> Result<(), ShapeFault>
    ensures { let ms = members_view members.now.entries in
        ReadsValue result (unless (external_conflict is_given not_external_action ms (get_member (codes "external") ms))
        ∷ []) Any }
{
    if !is_external(members) {
        return Ok(());
    }
    match NonEmpty::from_vec(given(alloc, members, &["attributes", "appliesTo"])?) {
        Some(fields) => Err(ShapeFault::ExternalConflict(fields)),
        None => Ok(()),
    }
}

/// Refuses what may not stand beside `enum`.
pub fn check_enum(alloc: Global, members: &Members) -> Result<(), ShapeFault>
    ensures { let ms = members_view members.now.entries in
        ReadsValue result (unless (enum_conflict ms (get_member (codes "enum") ms)) ∷ []) Any }
{
    if !is_there(members, "enum") {
        return Ok(());
    }
    match NonEmpty::from_vec(there(alloc, members, &["memberOfTypes", "shape", "tags"])?) {
        Some(fields) => Err(ShapeFault::EnumConflict(fields)),
        None => Ok(()),
    }
}

/// Refuses an `enum` without choices.
pub fn check_choices(members: &Members) -> Result<(), ShapeFault>
    ensures { let ms = members_view members.now.entries in
        ReadsValue result (unless (empty_enum (get_member (codes "enum") ms)) ∷ []) Any }
{
    match at(members, "enum") {
        Some(value) => {
            if is_empty_list(value) {
                return Err(ShapeFault::EmptyEnum);
            }
            Ok(())
        }
        None => Ok(()),
    }
}

fn is_empty_list(value: &Value) -> bool
    ensures { result ≡ is_empty_list (view value.now) }
{
    match value {
        Value::Array(items) => items.len() == 0,
        _ => false,
    }
}

/// Refuses annotations of the empty namespace.
pub fn check_annotated(members: &Members, key: &str) -> Result<(), ShapeFault>
    ensures { ReadsValue result (unless (empty_annotated key.now (members_view members.now.entries)) ∷ []) Any }
{
    if !key.is_empty() {
        return Ok(());
    }
    match at(members, "annotations") {
        Some(value) => {
            if has_members(value) {
                return Err(ShapeFault::AnnotationsOnEmptyNamespace);
            }
            Ok(())
        }
        None => Ok(()),
    }
}

fn has_members(value: &Value) -> bool
    ensures { result ≡ has_members (view value.now) }
{
    match value {
        Value::Object(members) => members.len() != 0,
        _ => false,
    }
}
