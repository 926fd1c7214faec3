// What is a sentence, what may come next, and where kinds stop being the beginning of a sentence.

ghost use Rattle.std.specs.Prelude.{◌↔◌, ◌+◌, ◌<◌, ◌≤◌, IfOk, IsTrue, MatchOption, length, map, take};
ghost use Rattle.schema_syntax_grammar.specs.Fault.{IsFault};
ghost use Rattle.schema_syntax_grammar.specs.Grammar.{IsExpected, Sentence, Viable};
ghost use Rattle.schema_syntax_grammar.specs.declared.token_kind.TheConstants.{ALL_KINDS};

use crate::stack::{front_of_kinds, longest_front};
use crate::token_kind::{HasKind, TokenKind};
use std::alloc::{AllocError, Global};

/// Where kinds stop being the beginning of a sentence, or that they are no whole one, and what may come there.
#[derive(Drop)]
pub struct Fault {
    /// How many of the kinds begin a sentence: as many as possible.
    pub place: usize,
    /// The kinds that may come next, in the order of all kinds, `End` last where the kinds before the place are a
    /// sentence.
    pub expected: Vec<TokenKind>,
}

/// Whether the kinds are those of a schema.
pub fn is_sentence(alloc: Global, kinds: &[TokenKind]) -> Result<bool, AllocError>
    ensures { IfOk result (λ yes. IsTrue yes ↔ Sentence kinds.now) }
{
    let front = front_of_kinds(alloc, kinds)?;
    if front.read < kinds.len() {
        return Ok(false);
    }
    Ok(front.may_end())
}

/// How many of the kinds begin a sentence: as many as possible.
pub fn longest_viable(alloc: Global, kinds: &[TokenKind]) -> Result<usize, AllocError>
    ensures within { IfOk result (λ place. place ≤ length kinds.now) }
    ensures viable { IfOk result (λ place. Viable (take place kinds.now)) }
    ensures stops { IfOk result (λ place. place < length kinds.now → Viable (take (place + 1) kinds.now) → ⊥) }
{
    let front = front_of_kinds(alloc, kinds)?;
    Ok(front.read)
}

/// The kinds that may come next, in the order of all kinds, `End` last where the kinds are a sentence; `None` exactly
/// where no sentence begins so.
pub fn expected_after(
    alloc: Global,
    kinds: &[TokenKind],
) -> Result<Option<Vec<TokenKind>>, AllocError>
    ensures { IfOk result (λ found. MatchOption found (Viable kinds.now → ⊥)
        (λ list. Viable kinds.now × IsExpected ALL_KINDS kinds.now list.items)) }
{
    let front = front_of_kinds(alloc, kinds)?;
    if front.read < kinds.len() {
        return Ok(None);
    }
    Ok(Some(front.allowed(alloc)?))
}

/// Where the kinds of the tokens stop being the beginning of a sentence, or that they are no whole one, with what may
/// come there; `None` exactly where they are a sentence.
pub fn fault_of<T: HasKind>(alloc: Global, tokens: &[T]) -> Result<Option<Fault>, AllocError>
    ensures { IfOk result (λ found. let kinds = map T.kind_of tokens.now in MatchOption found (Sentence kinds)
        (λ fault. IsFault ALL_KINDS kinds fault.place fault.expected.items)) }
{
    let front = longest_front(alloc, tokens)?;
    if front.read == tokens.len() && front.may_end() {
        return Ok(None);
    }
    let expected = front.allowed(alloc)?;
    Ok(Some(Fault {
        place: front.read,
        expected,
    }))
}
