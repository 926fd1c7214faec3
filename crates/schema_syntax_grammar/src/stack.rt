// What may still come, as a stack of symbols, the next one last.

ghost use Rattle.std.specs.Prelude.{◌≡◌, ◌++◌, ◌+◌, ◌<◌, ◌≤◌, [], ◌∷◌, None, Some, is_some};
ghost use Rattle.std.specs.Prelude.{OnOk, IfOk, IfSome, MatchBool, MatchOption, length, map, reverse, slice_get, take};
ghost use Rattle.std.specs.Bool.{OnFalse};
ghost use Rattle.std.specs.List.{filter};
ghost use Rattle.schema_syntax_grammar.specs.Machine.{all_nullable, may, run, step};
ghost use Rattle.schema_syntax_grammar.specs.declared.token_kind.TheConstants.{ALL_KINDS};
ghost use Rattle.schema_syntax_grammar.specs.declared.token_kind.TokenKind.{TokenKind};

use crate::symbol::Symbol;
use crate::token_kind::{ALL_KINDS, HasKind, TokenKind};
use std::alloc::{AllocError, Global};

// How many symbols stay below the one that takes a token of the kind, and what comes in its place.
fn taker(stack: &[Symbol], kind: TokenKind) -> Option<(usize, &'static [Symbol])>
    ensures step { MatchOption result (step (reverse stack.now) kind ≡ None)
        (λ found. step (reverse stack.now) kind ≡ Some (found.1.now ++ reverse (take found.0 stack.now))) }
    ensures in_range { IfSome result (λ found. found.0 < length stack.now) }
{
    let mut left = stack.len();
    while left > 0 {
        left -= 1;
        let symbol = stack[left];
        if let Some(next) = symbol.after_front(kind) {
            return Some((left, next));
        }
        if !symbol.is_nullable() {
            return None;
        }
    }
    None
}

// Puts the symbols on the stack, the first one on top.
fn push_all(stack: &mut Vec<Symbol>, symbols: &[Symbol]) -> Result<(), AllocError>
    ensures { OnOk result (reverse stack.new.items ≡ symbols.now ++ reverse stack.old.items) }
{
    let mut i = symbols.len();
    while i > 0 {
        i -= 1;
        stack.push(symbols[i])?;
    }
    Ok(())
}

// Puts the symbols in place of what stands behind the first so many, the first symbol on top.
fn put_behind(stack: &mut Vec<Symbol>, left: usize, symbols: &[Symbol]) -> Result<(), AllocError>
    requires { left < length stack.old.items }
    ensures { OnOk result (reverse stack.new.items ≡ symbols.now ++ reverse (take left stack.old.items)) }
{
    if symbols.is_empty() {
        stack.truncate(left);
        return Ok(());
    }
    let last = symbols.len() - 1;
    stack[left] = symbols[last];
    stack.truncate(left + 1);
    let (above, _) = symbols.split_at(last);
    push_all(stack, above)
}

/// Takes a token of the kind, where one may come; else the stack stays as it is. It goes down the stack as `taker`
/// does, by itself, since it is called for each token.
pub fn advance(stack: &mut Vec<Symbol>, kind: TokenKind) -> Result<bool, AllocError>
    ensures step { IfOk result (λ taken. MatchBool taken (step (reverse stack.old.items) kind
        ≡ Some (reverse stack.new.items))
        (step (reverse stack.old.items) kind ≡ None)) }
    ensures kept { IfOk result (λ taken. OnFalse taken (stack.new.items ≡ stack.old.items)) }
{
    let mut left = stack.len();
    while left > 0 {
        left -= 1;
        let symbol = stack[left];
        if let Some(next) = symbol.after_front(kind) {
            put_behind(stack, left, next)?;
            return Ok(true);
        }
        if !symbol.is_nullable() {
            return Ok(false);
        }
    }
    Ok(false)
}

// May the end come?
fn may_end(stack: &[Symbol]) -> bool
    ensures { result ≡ all_nullable (reverse stack.now) }
{
    let mut left = stack.len();
    while left > 0 {
        left -= 1;
        if !stack[left].is_nullable() {
            return false;
        }
    }
    true
}

// May the kind come next, or the end for `End`?
fn may_follow(stack: &[Symbol], kind: TokenKind) -> bool
    ensures { result ≡ may (reverse stack.now) kind }
{
    match kind {
        TokenKind::End => may_end(stack),
        _ => taker(stack, kind).is_some(),
    }
}

// The kinds that may come next, in the order of all kinds.
fn allowed(alloc: Global, stack: &[Symbol]) -> Result<Vec<TokenKind>, AllocError>
    ensures { IfOk result (λ list. list.items ≡ filter (may (reverse stack.now)) ALL_KINDS) }
{
    ALL_KINDS
        .iter()
        .copied()
        .filter(|kind| may_follow(stack, *kind))
        .collect(alloc)
}

// How far sentences begin as the kinds do, and the stack there.
#[derive(Drop)]
pub struct Front {
    pub read: usize,
    pub stack: Vec<Symbol>,
}

impl Front {
    // May the end come?
    pub fn may_end(&self) -> bool
        ensures { result ≡ all_nullable (reverse self.now.stack.items) }
    {
        may_end(&self.stack)
    }

    // The kinds that may come next, in the order of all kinds.
    pub fn allowed(&self, alloc: Global) -> Result<Vec<TokenKind>, AllocError>
        ensures { IfOk result (λ list. list.items ≡ filter (may (reverse self.now.stack.items)) ALL_KINDS) }
    {
        allowed(alloc, &self.stack)
    }
}

// The longest front of the tokens that begins a sentence.
pub fn longest_front<T: HasKind>(alloc: Global, tokens: &[T]) -> Result<Front, AllocError>
    ensures within { IfOk result (λ front. front.read ≤ length (map T.kind_of tokens.now)) }
    ensures stack { IfOk result (λ front. run (Symbol.Schema ∷ []) (take front.read (map T.kind_of tokens.now))
        ≡ Some (reverse front.stack.items)) }
    ensures stops { IfOk result (λ front. (k : TokenKind) → slice_get (map T.kind_of tokens.now) front.read ≡ Some k
        → step (reverse front.stack.items) k ≡ None) }
{
    let mut stack = Vec::new(alloc);
    push_all(&mut stack, &[Symbol::Schema])?;
    for i in 0..tokens.len() {
        if !advance(&mut stack, tokens[i].kind())? {
            return Ok(Front { read: i, stack });
        }
    }
    Ok(Front {
        read: tokens.len(),
        stack,
    })
}

// The longest front of the kinds that begins a sentence.
pub fn front_of_kinds(alloc: Global, kinds: &[TokenKind]) -> Result<Front, AllocError>
    ensures within { IfOk result (λ front. front.read ≤ length kinds.now) }
    ensures stack { IfOk result (λ front. run (Symbol.Schema ∷ []) (take front.read kinds.now)
        ≡ Some (reverse front.stack.items)) }
    ensures stops { IfOk result (λ front. (k : TokenKind) → slice_get kinds.now front.read ≡ Some k
        → step (reverse front.stack.items) k ≡ None) }
{
    longest_front(alloc, kinds)
}
