ghost use Rattle.std.specs.Prelude.{◌≡◌, IfOk, IfErr};
ghost use Rattle.std.specs.List.{prefix_len};
ghost use Rattle.schema_syntax_tokens.specs.Escapes.{Unescapes, IsRefused};
ghost use Rattle.schema_syntax_tokens.specs.Steps.{is_unescaped};

use crate::places::escape_of;
use cedar_data::Text;
use std::alloc::{AllocError, Global};

/// Why the body of a string stands for nothing.
#[derive(Clone, Copy, PartialEq, Eq)]
pub enum Refusal {
    /// No lawful escape starts at this byte of the body, where a backslash stands.
    Escape(usize),
    /// Out of memory.
    Memory,
}

impl From<AllocError> for Refusal {
    ghost use Rattle.schema_syntax_tokens.specs.declared.escapes.Refusal.TheVariants.{Memory};

    ghost from_gives = { λ _ refusal. refusal ≡ Memory };

    fn from(_error: AllocError) -> Refusal {
        Refusal::Memory
    }
}

/// How many bytes stand before the first backslash.
pub(crate) fn plain_len(rest: &[u8]) -> usize
    ensures { result ≡ prefix_len is_unescaped rest.now }
{
    for (at, byte) in rest.iter().enumerate() {
        if *byte == b'\\' {
            return at;
        }
    }
    rest.len()
}

/// What the body of a string, which stands between its quotes, stands for.
pub fn unescape(alloc: Global, body: &str) -> Result<Text, Refusal>
    ensures value { IfOk result (λ value. Unescapes body.now value) }
    ensures refused { IfErr result (IsRefused body.now) }
{
    if plain_len(body.as_bytes()) == body.len() {
        return Ok(Text::from_str(alloc, body)?);
    }
    unescape_pieces(alloc, body)
}

// What a body with escapes stands for, piece by piece.
fn unescape_pieces(alloc: Global, body: &str) -> Result<Text, Refusal>
    ensures value { IfOk result (λ value. Unescapes body.now value) }
    ensures refused { IfErr result (IsRefused body.now) }
{
    let mut value = String::new(alloc);
    let mut rest = body;
    loop {
        let (plain, after) = rest.split_at(plain_len(rest.as_bytes()));
        value.push_str(plain)?;
        if after.is_empty() {
            return Ok(Text::from_string(value));
        }
        match escape_of(after.as_bytes()) {
            None => return Err(Refusal::Escape(body.len() - after.len())),
            Some((character, len)) => {
                value.push(character)?;
                let (_, following) = after.split_at(len);
                rest = following;
            }
        }
    }
}
