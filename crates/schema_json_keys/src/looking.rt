ghost use Rattle.std.specs.Prelude.{◌≡◌, ℕ, List, false, IfOk, MatchOption, string_bytes};
ghost use Rattle.schema_json_keys.specs.Keys.{RepeatedKey};
ghost use Rattle.schema_json_keys.specs.Numbers.{HasNoNumber};

use crate::numbers::has_number;
use crate::repeated_keys::first_in_value;
use json::{Error, Scratch, Value};
use std::alloc::{AllocError, Global};

/// What was found in a text.
#[derive(Drop)]
pub struct Findings {
    /// The first key, by its escapes read, that its object has had before.
    pub repeated: Option<String>,
    /// Whether it may have a number.
    pub has_number: bool,
}

/// Looks through a text: for the first key that its object has had before, and where there is none, for numbers. In a
/// text that is no JSON no key repeats.
pub fn look_through(alloc: Global, text: &str) -> Result<Findings, AllocError>
    ensures repeated { IfOk result (λ found. MatchOption found.repeated ((name : List ℕ) → ¬ RepeatedKey text.now name)
        (λ name. RepeatedKey text.now (string_bytes name))) }
    ensures numbers { IfOk result (λ found. found.has_number ≡ false → HasNoNumber text.now) }
{
    let mut scratch = Scratch::new(alloc);
    let value = match Value::parse(alloc, text, &mut scratch) {
        Ok(value) => value,
        Err(Error::OutOfMemory) => return Err(AllocError),
        Err(_) => return Ok(Findings {
            repeated: None,
            has_number: true,
        }),
    };
    match first_in_value(alloc, &value)? {
        Some(name) => Ok(Findings {
            repeated: Some(String::from_str(alloc, name)?),
            has_number: true,
        }),
        None => Ok(Findings {
            repeated: None,
            has_number: has_number(&value),
        }),
    }
}
