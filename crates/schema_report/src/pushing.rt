//! Adding words, characters and numbers to a text.
ghost use Rattle.std.specs.Prelude.{◌≡◌, ◌+◌, ◌++◌, [], ◌∷◌, decimal, length, replicate, true, OnOk};
ghost use Rattle.std.specs.Char.{is_ascii};
ghost use Rattle.std.specs.List.{list_all};

use cedar_data::Text;
use itoa::Buffer;
use std::alloc::AllocError;

// Adds words in ASCII.
pub(crate) fn push(out: &mut Text, words: &str) -> Result<(), AllocError>
    requires { list_all is_ascii words.now ≡ true }
    ensures { OnOk result (out.new ≡ out.old ++ words.now) }
{
    out.push_str(words)
}

// Adds the character.
pub(crate) fn push_char(out: &mut Text, c: char) -> Result<(), AllocError>
    ensures { OnOk result (out.new ≡ out.old ++ c ∷ []) }
{
    let mut bytes = [0u8; 4];
    out.push_str(c.encode_utf8(&mut bytes))
}

// Adds a number that people count from 1, in decimal digits.
pub(crate) fn push_from_one(out: &mut Text, number: usize) -> Result<(), AllocError>
    ensures { OnOk result (out.new ≡ out.old ++ decimal (number + 1)) }
{
    let mut buffer = Buffer::new();
    out.push_str(buffer.format(number as u128 + 1))
}

// How many digits a number has that people count from 1.
pub(crate) fn digits_len(number: usize) -> usize
    ensures { result ≡ length (decimal (number + 1)) }
{
    let mut buffer = Buffer::new();
    buffer.format(number as u128 + 1).len()
}

// Adds the character so many times.
pub(crate) fn push_repeated(out: &mut Text, c: char, count: usize) -> Result<(), AllocError>
    ensures { OnOk result (out.new ≡ out.old ++ replicate count c) }
{
    for _at in 0..count {
        push_char(out, c)?;
    }
    Ok(())
}
