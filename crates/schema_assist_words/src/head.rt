// The text before a place, and the partial word at its end.

ghost use Rattle.std.specs.Prelude.{◌≡◌, List, take, MatchOption, IfOk};
ghost use Rattle.std.specs.Str.{IsCharBoundary};
ghost use Rattle.schema_syntax_tokens.specs.declared.token.Token.{Token};
ghost use Rattle.schema_assist_words.specs.Before.{IsWordBefore};
ghost use Rattle.schema_assist_words.specs.Cuts.{IsCutOf};

use cedar_data::Loc;
use schema_syntax_tokens::{ShortScan, ShortToken, scan_short};
use std::alloc::{AllocError, Global};

/// The text before the place, and `None` exactly where the place is no place of the text between characters.
pub fn head_of(text: &str, at: usize) -> Option<&str>
    ensures { MatchOption result (IsCharBoundary text.now at → ⊥) (λ head. IsCharBoundary text.now at
        × (head.now ≡ take at text.now)) }
{
    if !text.is_char_boundary(at) {
        return None;
    }
    let (head, _) = text.split_at(at);
    Some(head)
}

/// The place of the partial word of a head, and the tokens of the head without that word.
#[derive(Drop)]
pub struct Cut {
    /// Where the partial word stands: at the end of the head, and empty there where no word is being written.
    pub partial: Loc,
    /// The tokens before the partial word.
    pub front: Vec<ShortToken>,
    /// Where they stop, in front of the partial word or at a place where no token stands.
    pub stop: usize,
}

// The place of the last token, where that is a word that ends there.
fn last_word(tokens: &[ShortToken], end: usize) -> Option<Loc>
    ensures { MatchOption result ((front : List Token) (last : Token) → IsWordBefore tokens.now end front last → ⊥)
        (λ loc. (front : List Token) × (last : Token) × IsWordBefore tokens.now end front last × (loc ≡ last.loc)) }
{
    match tokens {
        [] => None,
        [.., last] => {
            let loc = last.loc();
            if last.kind().is_word() && loc.end == end {
                Some(loc)
            } else {
                None
            }
        }
    }
}

/// Cuts the partial word off the head, which is read once.
pub fn cut_head(alloc: Global, head: &str) -> Result<Cut, AllocError>
    ensures { IfOk result (λ cut. IsCutOf head.now cut.partial cut.front.items cut.stop) }
{
    let ShortScan { mut tokens, at } = scan_short(alloc, head)?;
    let end = head.len();
    match last_word(&tokens, end) {
        None => Ok(Cut {
            partial: Loc::new(end, end),
            front: tokens,
            stop: at,
        }),
        Some(partial) => {
            let _ = tokens.pop();
            let stop = partial.start;
            Ok(Cut {
                partial,
                front: tokens,
                stop,
            })
        }
    }
}
