//! What words stand for.
ghost use Rattle.std.specs.Prelude.{◌≡◌, false, IfOk, IfErr, OnOk};
ghost use Rattle.cedar_identifiers.specs.Words.{is_reserved};
ghost use Rattle.schema_syntax_reader.specs.Leaves.{word_at};
ghost use Rattle.schema_syntax_reader.specs.Stops.{IsPlacedWord, IsReservedStop};

use crate::stopped::Stopped;
use cedar_data::{Boxed, Node, Text};
use cedar_identifiers::is_reserved;
use schema_syntax_errors::UserError;
use schema_syntax_tokens::{ShortToken, token_text};
use schema_syntax_tree::{SrcId, SrcWord};
use std::alloc::Global;

/// The word at the token's place.
pub fn any_word<'a>(text: &'a str, token: &ShortToken) -> SrcWord<'a>
    requires { IsPlacedWord text.now token.now }
    ensures { result.text ≡ word_at text.now token.now }
{
    SrcWord::of(token_text(token, text).unwrap())
}

// Whether the word is reserved. Most words begin as no reserved one does.
fn is_reserved_word(word: &str) -> bool
    ensures { result ≡ is_reserved word.now }
{
    match word.as_bytes() {
        [b'i' | b't' | b'f' | b'e' | b'l' | b'h', ..] => is_reserved(word),
        _ => false,
    }
}

/// The word at the token's place, which is a name unless it is reserved.
pub fn name_word<'a>(alloc: Global, text: &'a str, token: &ShortToken) -> Result<SrcId<'a>, Stopped>
    requires { IsPlacedWord text.now token.now }
    ensures name { IfOk result (λ id. id.text ≡ word_at text.now token.now) }
    ensures free { OnOk result (is_reserved (word_at text.now token.now) ≡ false) }
    ensures reserved { IfErr result (IsReservedStop text.now token.now) }
{
    let part = token_text(token, text).unwrap();
    if is_reserved_word(part) {
        let word = Text::from_str(alloc, part)?;
        let fault = UserError::ReservedIdentifierUsed(Node {
            node: word,
            loc: Some(token.loc()),
        });
        return Err(Stopped::User(Boxed::new(alloc, fault)?));
    }
    Ok(SrcId::of(part))
}
