// Whether the fields of a type read, and what they are where they do.
ghost use Rattle.std.specs.Prelude.{◌≡◌, true, Some, option_map, codes};
ghost use Rattle.serde_json.specs.Data.{object, string};
ghost use Rattle.serde_json.specs.View.{view, members_view};
ghost use Rattle.serde_json.specs.Find.{get_member, as_object};
ghost use Rattle.schema_json_shapes.specs.Walk.{flag_or};
ghost use Rattle.schema_compat_shapes.specs.OldTypes.{is_text, is_flag_or_none, object_members, is_old_type};
ghost use Rattle.schema_compat_shapes.specs.OldTypes.{is_old_attribute, are_all_attributes, are_old_attributes};
ghost use Rattle.schema_compat_shapes.specs.OldTypes.{inner_reads, has_no_other, ignores_others, reads_as_shape};

use crate::tables::type_fields;
use schema_json_shapes::TypeWord;
use schema_json_shapes::fields::{Members, at, first_unknown};
use serde_json::Value;

// Whether the member is a text.
fn is_text(members: &Members, name: &str) -> bool
    ensures { result ≡ is_text (get_member name.now (members_view members.now.entries)) }
{
    match at(members, name) {
        Some(Value::String(_)) => true,
        _ => false,
    }
}

// Whether the member is a boolean, where it is there.
fn is_flag_or_none(members: &Members, name: &str) -> bool
    ensures { result ≡ is_flag_or_none (get_member name.now (members_view members.now.entries)) }
{
    match at(members, name) {
        Some(Value::Bool(_)) => true,
        Some(_) => false,
        None => true,
    }
}

// The members of the object that the member is.
fn object_at<'v>(members: &'v Members, name: &str) -> Option<&'v Members>
    ensures { option_map (λ m. members_view m.now.entries) result
        ≡ object_members (get_member name.now (members_view members.now.entries)) }
{
    match at(members, name) {
        Some(value) => value.as_object(),
        None => None,
    }
}

// Whether the member is an object with a text as its member `type`.
fn is_type(members: &Members, name: &str) -> bool
    ensures { result ≡ is_old_type (object_members (get_member name.now (members_view members.now.entries))) }
{
    match object_at(members, name) {
        Some(inner) => is_text(inner, "type"),
        None => false,
    }
}

// Whether the value is an attribute.
fn is_attribute(value: &Value) -> bool
    ensures { result ≡ is_old_attribute (as_object (view value.now)) }
{
    match value.as_object() {
        Some(members) => is_text(members, "type") && is_flag_or_none(members, "required"),
        None => false,
    }
}

fn are_all_attributes(members: &Members) -> bool
    ensures { result ≡ are_all_attributes (members_view members.now.entries) }
{
    for (_, value) in members {
        if !is_attribute(value) {
            return false;
        }
    }
    true
}

// Whether the member is an object of attributes.
fn are_attributes(members: &Members, name: &str) -> bool
    ensures { result ≡ are_old_attributes (object_members (get_member name.now (members_view members.now.entries))) }
{
    match object_at(members, name) {
        Some(inner) => are_all_attributes(inner),
        None => false,
    }
}

// Whether the fields that go with the word read.
fn inner_reads(members: &Members, word: TypeWord) -> bool
    ensures { result ≡ inner_reads word (members_view members.now.entries) }
{
    match word {
        TypeWord::String | TypeWord::Long | TypeWord::Boolean => true,
        TypeWord::Set => is_type(members, "element"),
        TypeWord::Record => {
            are_attributes(members, "attributes")
                && is_flag_or_none(members, "additionalAttributes")
        }
        TypeWord::Entity | TypeWord::Extension => is_text(members, "name"),
        TypeWord::EntityOrCommon | TypeWord::Reference => false,
    }
}

// Whether further fields are ignored beside the word.
fn ignores_others(word: TypeWord) -> bool
    ensures { result ≡ ignores_others word }
{
    match word {
        TypeWord::String | TypeWord::Long | TypeWord::Boolean => true,
        _ => false,
    }
}

fn has_no_other(members: &Members, word: TypeWord, as_attribute: bool) -> bool
    ensures { result ≡ has_no_other as_attribute word (members_view members.now.entries) }
{
    first_unknown(type_fields(as_attribute, word), members).is_none()
}

// Whether the object reads as the shape that its word names.
pub(crate) fn reads_as_shape(members: &Members, word: TypeWord, as_attribute: bool) -> bool
    ensures { result ≡ reads_as_shape as_attribute word (members_view members.now.entries) }
{
    inner_reads(members, word)
        && (ignores_others(word) || has_no_other(members, word, as_attribute))
}

// The text that the member is.
pub(crate) fn text_in<'v>(members: &'v Members, name: &str) -> &'v str
    requires { is_text (get_member name.now (members_view members.now.entries)) ≡ true }
    ensures { get_member name.now (members_view members.now.entries) ≡ Some (string result.now) }
{
    match at(members, name) {
        Some(Value::String(text)) => text.as_str(),
        _ => unreachable!(),
    }
}

// The members of the type that the member is.
pub(crate) fn type_in<'v>(members: &'v Members, name: &str) -> &'v Members
    requires { is_old_type (object_members (get_member name.now (members_view members.now.entries))) ≡ true }
    ensures there { get_member name.now (members_view members.now.entries)
        ≡ Some (object (members_view result.now.entries)) }
    ensures typed { is_text (get_member (codes "type") (members_view result.now.entries)) ≡ true }
{
    match object_at(members, name) {
        Some(inner) => inner,
        None => unreachable!(),
    }
}

// The attributes that the member is.
pub(crate) fn attributes_in<'v>(members: &'v Members, name: &str) -> &'v Members
    requires { are_old_attributes (object_members (get_member name.now (members_view members.now.entries))) ≡ true }
    ensures there { get_member name.now (members_view members.now.entries)
        ≡ Some (object (members_view result.now.entries)) }
    ensures all { are_all_attributes (members_view result.now.entries) ≡ true }
{
    match object_at(members, name) {
        Some(inner) => inner,
        None => unreachable!(),
    }
}

// The boolean that the member is, or else this one.
pub(crate) fn flag_in(members: &Members, name: &str, otherwise: bool) -> bool
    ensures { result ≡ flag_or otherwise (get_member name.now (members_view members.now.entries)) }
{
    match at(members, name) {
        Some(Value::Bool(b)) => *b,
        _ => otherwise,
    }
}
