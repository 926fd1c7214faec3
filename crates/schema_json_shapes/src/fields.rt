// The fields of an object, looked up and checked against its table.
ghost use Rattle.std.specs.Prelude.{◌≡◌, ◌≤◌, length, true, Some, option_map};
ghost use Rattle.serde_json.specs.View.{view, members_view};
ghost use Rattle.serde_json.specs.Find.{get_member};
ghost use Rattle.schema_json_shapes.specs.Tables.{is_field, first_unknown, first_missing};
ghost use Rattle.schema_json_shapes.specs.Walk.{fits_table, is_there};
ghost use Rattle.schema_json_shapes.specs.Said.{not_null};
ghost use Rattle.schema_json_shapes.specs.Seen.{table};
ghost use Rattle.schema_json_shapes.specs.Reads.{ReadsValue, Any};

use crate::shape_fault::ShapeFault;
use crate::tables::Field;
use cedar_data::{Text, same_bytes};
use serde_json::{Map, Value};
use std::alloc::Global;

/// The members of a JSON object.
pub type Members = Map<String, Value>;

// How many members are looked at from both ends, which takes less than a walk.
const TWO: usize = 2;

// How many members are looked through one by one, which takes less than halving.
const FEW: usize = 8;

/// The member of this name.
pub fn at<'v>(members: &'v Members, name: &str) -> Option<&'v Value>
    ensures { option_map (λ v. view v.now) result ≡ get_member name.now (members_view members.now.entries) }
{
    if members.len() <= TWO {
        return at_end(members, name);
    }
    if members.len() <= FEW {
        return at_few(members, name);
    }
    members.get(name)
}

// The member of this name among two at most, each of which is the first or the last.
fn at_end<'v>(members: &'v Members, name: &str) -> Option<&'v Value>
    requires { length members.now.entries ≤ TWO }
    ensures { option_map (λ v. view v.now) result ≡ get_member name.now (members_view members.now.entries) }
{
    let Some((first, value)) = members.first_key_value() else {
        return None;
    };
    if same_bytes(name, first.as_str()) {
        return Some(value);
    }
    let Some((last, value)) = members.last_key_value() else {
        return None;
    };
    if same_bytes(name, last.as_str()) {
        return Some(value);
    }
    None
}

// The member of this name among few, which are looked through one by one.
fn at_few<'v>(members: &'v Members, name: &str) -> Option<&'v Value>
    ensures { option_map (λ v. view v.now) result ≡ get_member name.now (members_view members.now.entries) }
{
    for (key, value) in members {
        if same_bytes(name, key.as_str()) {
            return Some(value);
        }
    }
    None
}

/// The member of this name, which is there.
pub fn needed<'v>(members: &'v Members, name: &str) -> &'v Value
    requires { is_there (get_member name.now (members_view members.now.entries)) ≡ true }
    ensures { get_member name.now (members_view members.now.entries) ≡ Some (view result.now) }
{
    match at(members, name) {
        Some(value) => value,
        None => unreachable!(),
    }
}

/// The member of this name, where it is not null.
pub fn given_at<'v>(members: &'v Members, name: &str) -> Option<&'v Value>
    ensures { option_map (λ v. view v.now) result ≡ not_null (get_member name.now (members_view members.now.entries)) }
{
    match at(members, name) {
        Some(value) => { if value.is_null() { None } else { Some(value) } }
        None => None,
    }
}

fn is_field(fields: &[Field], key: &str) -> bool
    ensures { result ≡ is_field (table fields.now) key.now }
{
    for field in fields {
        if same_bytes(field.name, key) {
            return true;
        }
    }
    false
}

/// The least key of the object that is none of these fields.
pub fn first_unknown<'v>(fields: &[Field], members: &'v Members) -> Option<&'v str>
    ensures { option_map (λ k. k.now) result ≡ first_unknown (table fields.now) (members_view members.now.entries) }
{
    if members.len() <= TWO {
        return unknown_at_end(fields, members);
    }
    for (key, _) in members {
        if !is_field(fields, key.as_str()) {
            return Some(key.as_str());
        }
    }
    None
}

// The least of two keys at most that is none of these fields.
fn unknown_at_end<'v>(fields: &[Field], members: &'v Members) -> Option<&'v str>
    requires { length members.now.entries ≤ TWO }
    ensures { option_map (λ k. k.now) result ≡ first_unknown (table fields.now) (members_view members.now.entries) }
{
    let Some((first, _)) = members.first_key_value() else {
        return None;
    };
    let least = first.as_str();
    if !is_field(fields, least) {
        return Some(least);
    }
    let Some((last, _)) = members.last_key_value() else {
        return None;
    };
    let greatest = last.as_str();
    if !is_field(fields, greatest) {
        return Some(greatest);
    }
    None
}

fn first_missing(fields: &[Field], members: &Members) -> Option<&'static str>
    ensures { option_map (λ k. k.now) result ≡ first_missing (table fields.now) (members_view members.now.entries) }
{
    for field in fields {
        if field.needed && at(members, field.name).is_none() {
            return Some(field.name);
        }
    }
    None
}

/// Refuses an object that does not have these fields.
pub fn check_fields(alloc: Global, fields: &[Field], members: &Members) -> Result<(), ShapeFault>
    ensures { ReadsValue result (fits_table (table fields.now) (members_view members.now.entries)) Any }
{
    if let Some(key) = first_unknown(fields, members) {
        return Err(ShapeFault::UnknownField(Text::from_str(alloc, key)?));
    }
    if let Some(name) = first_missing(fields, members) {
        return Err(ShapeFault::MissingField(Text::from_str(alloc, name)?));
    }
    Ok(())
}
