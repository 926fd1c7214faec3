ghost use Rattle.std.specs.Prelude.{◌≡◌, true, [], IfOk, map, option_map};
ghost use Rattle.std.specs.List.{list_any};
ghost use Rattle.std.specs.List.Sorted.{IsStrictlySortedBy};
ghost use Rattle.std.specs.Str.{bytes_eq};
ghost use Rattle.std.specs.Ordering.{nat_cmp};
ghost use Rattle.std.specs.Cmp.Lexicographic.{slice_cmp};
ghost use Rattle.json.specs.Value.{value_view, items_view, members_view};
ghost use Rattle.schema_json_keys.specs.Keys.{keys_of, items_keys, members_keys};
ghost use Rattle.schema_json_keys.specs.Computed.{first_again};

use cedar_data::{compare_bytes, same_bytes};
use json::Value;
use std::alloc::{AllocError, Global};
use std::cmp::Ordering;
use std::collections::BTreeSet;

// In how many members a key is looked for one by one, which takes less than a set.
const FEW: usize = 8;

/// The first key in the value that its object has had before.
#[cycle(first)]
pub fn first_in_value<'a>(alloc: Global, value: &Value<'a>) -> Result<Option<&'a str>, AllocError>
    ensures { IfOk result (λ name. option_map (λ s. s.now) name
        ≡ first_again (keys_of (value_view value.now))) }
{
    match value {
        Value::Array(items) => first_in_items(alloc, items),
        Value::Object(members) => {
            if keys_rise(members) {
                first_in_rising(alloc, members)
            } else if members.len() <= FEW {
                first_in_few(alloc, members)
            } else {
                first_in_members(alloc, members)
            }
        }
        _ => Ok(None),
    }
}

#[cycle(first)]
fn first_in_items<'a>(alloc: Global, items: &Vec<Value<'a>>) -> Result<Option<&'a str>, AllocError>
    ensures { IfOk result (λ name. option_map (λ s. s.now) name
        ≡ first_again (items_keys (items_view items.now.items))) }
{
    for item in items {
        if let Some(name) = first_in_value(alloc, item)? {
            return Ok(Some(name));
        }
    }
    Ok(None)
}

// In members with rising keys, none of which comes again.
#[cycle(first)]
fn first_in_rising<'a>(
    alloc: Global,
    members: &Vec<(&'a str, Value<'a>)>,
) -> Result<Option<&'a str>, AllocError>
    requires { IsStrictlySortedBy (slice_cmp nat_cmp) (map (λ m. m.0.now) members.now.items) }
    ensures { IfOk result (λ name. option_map (λ s. s.now) name
        ≡ first_again (members_keys [] (members_view members.now.items))) }
{
    for member in members {
        if let Some(name) = first_in_value(alloc, &member.1)? {
            return Ok(Some(name));
        }
    }
    Ok(None)
}

#[cycle(first)]
fn first_in_members<'a>(
    alloc: Global,
    members: &Vec<(&'a str, Value<'a>)>,
) -> Result<Option<&'a str>, AllocError>
    ensures { IfOk result (λ name. option_map (λ s. s.now) name
        ≡ first_again (members_keys [] (members_view members.now.items))) }
{
    let mut seen = BTreeSet::new(alloc);
    for member in members {
        if !seen.insert(member.0)? {
            return Ok(Some(member.0));
        }
        if let Some(name) = first_in_value(alloc, &member.1)? {
            return Ok(Some(name));
        }
    }
    Ok(None)
}

#[cycle(first)]
fn first_in_few<'a>(
    alloc: Global,
    members: &Vec<(&'a str, Value<'a>)>,
) -> Result<Option<&'a str>, AllocError>
    ensures { IfOk result (λ name. option_map (λ s. s.now) name
        ≡ first_again (members_keys [] (members_view members.now.items))) }
{
    for at in 0..members.len() {
        let member = &members[at];
        let key = member.0;
        let (earlier, _) = members.as_slice().split_at(at);
        if is_among(earlier, key) {
            return Ok(Some(key));
        }
        if let Some(name) = first_in_value(alloc, &member.1)? {
            return Ok(Some(name));
        }
    }
    Ok(None)
}

// Whether each key is less than the next, as in a text that was written in order.
fn keys_rise(members: &Vec<(&str, Value<'_>)>) -> bool
    ensures { result ≡ true → IsStrictlySortedBy (slice_cmp nat_cmp) (map (λ m. m.0.now) members.now.items) }
{
    for next in 1..members.len() {
        match compare_bytes(members[next - 1].0, members[next].0) {
            Ordering::Less => {}
            _ => return false,
        }
    }
    true
}

// Whether one of the members has the key.
fn is_among(members: &[(&str, Value<'_>)], key: &str) -> bool
    ensures { result ≡ list_any (bytes_eq key.now) (map (λ m. m.0.now) members.now) }
{
    for member in members {
        if same_bytes(key, member.0) {
            return true;
        }
    }
    false
}
