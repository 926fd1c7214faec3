// The values of texts in which no object has a key twice and nothing is a number, read in one pass.
ghost use Rattle.std.specs.Prelude.{◌<◌, [], length, IfOk, OnOk, IfSome};
ghost use Rattle.json.specs.Json.{value, items, members};
ghost use Rattle.serde_json.specs.Data.{no_members};
ghost use Rattle.serde_json.specs.View.{view, items_view, members_view};
ghost use Rattle.schema_json_keys.specs.Plain.{IsPlainValue, ArePlainItems, ArePlainMembers, IsPlainText};

use json::{Invalid, Reader, Scratch, Token};
use serde_json::{Map, Value};
use std::alloc::{AllocError, AllocFailed, Global};

// How deep arrays and objects may nest.
const MAX_DEPTH: usize = 127;

// Why a value was not read.
#[derive(Clone, Copy, Drop)]
enum Stop {
    // The text is no JSON, or has a number or an object with a key twice.
    NotPlain,
    Memory,
}

impl From<Invalid> for Stop {
    fn from(_invalid: Invalid) -> Stop {
        Stop::NotPlain
    }
}

impl From<AllocError> for Stop {
    fn from(_refused: AllocError) -> Stop {
        Stop::Memory
    }
}

impl<T: Drop> From<AllocFailed<T>> for Stop {
    fn from(_refused: AllocFailed<T>) -> Stop {
        Stop::Memory
    }
}

/// The value of a JSON text, where no object in it has a key twice and nothing in it is a number.
pub fn plain_value(alloc: Global, text: &str) -> Result<Option<Value>, AllocError>
    ensures { IfOk result (λ found. IfSome found (λ v. IsPlainText text.now (view v))) }
{
    let mut scratch = Scratch::new(alloc);
    let mut reader = Reader::new(text, &mut scratch)?;
    match read_value(alloc, &mut reader, MAX_DEPTH) {
        Ok(value) => {
            if reader.next().is_some() {
                return Ok(None);
            }
            Ok(Some(value))
        }
        Err(Stop::NotPlain) => Ok(None),
        Err(Stop::Memory) => Err(AllocError),
    }
}

#[cycle(plain)]
#[inline(always)]
fn read_value(alloc: Global, reader: &mut Reader<'_>, depth: usize) -> Result<Value, Stop>
    ensures plain { IfOk result (λ v. IsPlainValue (value depth reader.old) (view v) reader.new) }
    ensures shorter { OnOk result (length reader.new < length reader.old) }
{
    let token = reader.next().ok_or(Stop::NotPlain)?;
    match token {
        Token::String(text) => Ok(Value::String(String::from_str(alloc, text)?)),
        Token::Bool(b) => Ok(Value::Bool(b)),
        Token::Null => Ok(Value::Null),
        Token::BeginArray => {
            if depth == 0 {
                return Err(Stop::NotPlain);
            }
            Ok(Value::Array(read_items(alloc, reader, depth - 1)?))
        }
        Token::BeginObject => {
            if depth == 0 {
                return Err(Stop::NotPlain);
            }
            Ok(Value::Object(read_members(alloc, reader, depth - 1)?))
        }
        Token::Number(_) | Token::EndObject | Token::EndArray | Token::Key(_) | Token::Bad => {
            Err(Stop::NotPlain)
        }
    }
}

#[cycle(plain)]
#[inline(never)]
fn read_items(alloc: Global, reader: &mut Reader<'_>, depth: usize) -> Result<Vec<Value>, Stop>
    ensures plain { IfOk result (λ found. ArePlainItems (items (value depth) (length reader.old) reader.old)
        (items_view found.items) reader.new) }
    ensures shorter { OnOk result (length reader.new < length reader.old) }
{
    let mut found = Vec::new(alloc);
    'items: while !reader.take_end_array() {
        let item = read_value(alloc, reader, depth)?;
        found.push(item)?;
    }
    Ok(found)
}

#[cycle(plain)]
#[inline(never)]
fn read_members(
    alloc: Global,
    reader: &mut Reader<'_>,
    depth: usize,
) -> Result<Map<String, Value>, Stop>
    ensures plain { IfOk result (λ found. ArePlainMembers [] no_members
        (members (value depth) (length reader.old) reader.old) (members_view found.entries) reader.new) }
    ensures shorter { OnOk result (length reader.new < length reader.old) }
{
    let mut found = Map::new(alloc);
    'members: while let Some(name) = reader.next_key()? {
        let key = String::from_str(alloc, name)?;
        let member = read_value(alloc, reader, depth)?;
        if let Some(_earlier) = found.insert(key, member)? {
            return Err(Stop::NotPlain);
        }
    }
    Ok(found)
}
