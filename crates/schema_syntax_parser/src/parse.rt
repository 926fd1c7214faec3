ghost use Rattle.std.specs.Prelude.{◌≡◌, ◌<◌, [], length, IfOk, IfSome, MatchOption};
ghost use Rattle.schema_syntax_grammar.specs.Grammar.{Sentence};
ghost use Rattle.schema_syntax_parser.specs.Syntax.{IsFirstItem};
ghost use Rattle.schema_syntax_tokens.specs.TokenLists.{kinds_of};

use crate::items::item;
use crate::stop::Stop;
use crate::syntax::ItemSyntax;
use schema_syntax_tokens::ShortToken;
use std::alloc::{AllocError, Global};

/// The first item of the tokens, whose kinds are those of a schema, and the tokens behind it; `None` exactly where
/// there is no token.
pub fn next_item(
    alloc: Global,
    tokens: &[ShortToken],
) -> Result<Option<(ItemSyntax, &[ShortToken])>, AllocError>
    requires sentence { Sentence (kinds_of tokens.now) }
    ensures item { IfOk result (λ next. MatchOption next (tokens.now ≡ []) (λ n. IsFirstItem tokens.now n.0 n.1.now)) }
    ensures shorter { IfOk result (λ next. IfSome next (λ n. length n.1.now < length tokens.now)) }
{
    if tokens.is_empty() {
        return Ok(None);
    }
    match item(alloc, tokens) {
        Ok(read) => Ok(Some(read)),
        Err(Stop::Mismatch) => unreachable!(),
        Err(Stop::Memory) => Err(AllocError),
    }
}
