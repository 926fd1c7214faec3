// The role of a word that may come next, and the namespace around it, by the stack of the grammar's machine.

ghost use Rattle.std.specs.Prelude.{◌≡◌, ◌≤◌, [], ◌∷◌, Some, None, IfOk, IfErr, MatchOption, length, map, reverse};
ghost use Rattle.std.specs.Prelude.{slice_get, take};
ghost use Rattle.schema_syntax_grammar.specs.Grammar.{IsExpected, Viable};
ghost use Rattle.schema_syntax_grammar.specs.Machine.{run, step};
ghost use Rattle.schema_syntax_grammar.specs.declared.token_kind.TheConstants.{ALL_KINDS};
ghost use Rattle.schema_syntax_grammar.specs.declared.token_kind.TokenKind.{TokenKind};
ghost use Rattle.schema_syntax_grammar.specs.declared.token_kind.TokenKind.TheVariants.{Identifier};
ghost use Rattle.schema_assist_places.specs.declared.duty.Duty.TheVariants.{Begins};
ghost use Rattle.schema_assist_places.specs.declared.role.Role.{Role};
ghost use Rattle.schema_assist_places.specs.Behind.{IsPlaceBehind, IsStop};
ghost use Rattle.schema_assist_places.specs.Duties.{begun};
ghost use Rattle.schema_assist_places.specs.Trace.{duty_of, item_duty, space_after, space_of, taken};

use crate::duty::Duty;
use crate::role::Role;
use schema_syntax_grammar::stack::{Front, advance};
use schema_syntax_grammar::symbol::Symbol;
use schema_syntax_grammar::{Fault, HasKind, TokenKind};
use std::alloc::{AllocError, Global};

/// A word that may come next, which begins a path or a reference.
#[derive(Clone, Copy)]
pub struct Place {
    /// What a word that comes next may begin.
    pub role: Role,
    /// The place of the word `namespace` that opened the namespace around it.
    pub space: Option<usize>,
}

fn item_duty(kind: TokenKind) -> Duty
    ensures { result ≡ item_duty kind }
{
    match kind {
        TokenKind::KwNamespace => Duty::Opens,
        TokenKind::At => Duty::Plain,
        _ => Duty::Outside,
    }
}

fn begun(role: Role, kind: TokenKind) -> Duty
    ensures { result ≡ begun role kind }
{
    match kind {
        TokenKind::Identifier => Duty::Begins(role),
        _ => Duty::Plain,
    }
}

fn duty_of(symbol: Symbol, kind: TokenKind) -> Duty
    ensures { result ≡ duty_of symbol kind }
{
    match symbol {
        Symbol::Schema => item_duty(kind),
        Symbol::Item => item_duty(kind),
        Symbol::ContextType => begun(Role::ContextPath, kind),
        Symbol::Types => begun(Role::EntityPath, kind),
        Symbol::Paths => begun(Role::EntityPath, kind),
        Symbol::Refs => begun(Role::ActionRef, kind),
        Symbol::RefList => begun(Role::ActionRef, kind),
        Symbol::AnyType => begun(Role::TypePath, kind),
        _ => Duty::Plain,
    }
}

// What a token of the kind does that comes next.
fn taken(stack: &[Symbol], kind: TokenKind) -> Duty
    ensures { result ≡ taken (reverse stack.now) kind }
{
    let mut left = stack.len();
    while left > 0 {
        left -= 1;
        let symbol = stack[left];
        if symbol.after_front(kind).is_some() {
            return duty_of(symbol, kind);
        }
        if !symbol.is_nullable() {
            return Duty::Plain;
        }
    }
    Duty::Plain
}

// The namespace that is open after one token more.
fn space_after(space: Option<usize>, i: usize, duty: Duty) -> Option<usize>
    ensures { result ≡ space_after space i duty }
{
    match duty {
        Duty::Opens => Some(i),
        Duty::Outside => None,
        _ => space,
    }
}

/// What may stand behind tokens with which some schema begins.
#[derive(Drop)]
pub struct Standing {
    /// The kinds that may come next, in the order of all kinds, `End` last where the tokens are those of a schema.
    pub expected: Vec<TokenKind>,
    /// In which role a word may come next, and where; `None` exactly where none may in a role.
    pub place: Option<Place>,
}

/// Why nothing is said of what may stand behind tokens.
#[derive(Drop)]
pub enum Stopped {
    /// One of the tokens stands where no schema has it.
    Fault(Fault),
    /// Out of memory.
    Memory,
}

impl From<AllocError> for Stopped {
    ghost use Rattle.schema_assist_places.specs.declared.place.Stopped.TheVariants.{Memory};

    ghost from_gives = { λ _ stopped. stopped ≡ Memory };

    fn from(_error: AllocError) -> Stopped {
        Stopped::Memory
    }
}

// The longest front of tokens with which some schema begins, and the namespace that is open behind it.
#[derive(Drop)]
struct Walk {
    front: Front,
    space: Option<usize>,
}

// Goes over the tokens, as far as some schema begins with them.
fn walk_tokens<T: HasKind>(alloc: Global, tokens: &[T]) -> Result<Walk, AllocError>
    ensures within { IfOk result (λ walk. walk.front.read ≤ length (map T.kind_of tokens.now)) }
    ensures stack { IfOk result (λ walk. run (Symbol.Schema ∷ []) (take walk.front.read (map T.kind_of tokens.now))
        ≡ Some (reverse walk.front.stack.items)) }
    ensures stops { IfOk result (λ walk. (k : TokenKind) → slice_get (map T.kind_of tokens.now) walk.front.read ≡ Some k
        → step (reverse walk.front.stack.items) k ≡ None) }
    ensures space { IfOk result (λ walk. space_of (take walk.front.read (map T.kind_of tokens.now)) ≡ walk.space) }
{
    let mut stack = Vec::new(alloc);
    stack.push(Symbol::Schema)?;
    let mut space = None;
    for i in 0..tokens.len() {
        let kind = tokens[i].kind();
        let next = space_after(space, i, taken(&stack, kind));
        if !advance(&mut stack, kind)? {
            let front = Front { read: i, stack };
            return Ok(Walk { front, space });
        }
        space = next;
    }
    let front = Front {
        read: tokens.len(),
        stack,
    };
    Ok(Walk { front, space })
}

// In which role a word may come next on the stack, in this namespace.
fn place_on(stack: &[Symbol], space: Option<usize>) -> Option<Place>
    ensures { MatchOption result ((role : Role) → taken (reverse stack.now) Identifier ≡ Begins role → ⊥)
        (λ place. (taken (reverse stack.now) Identifier ≡ Begins place.role) × (place.space ≡ space)) }
{
    match taken(stack, TokenKind::Identifier) {
        Duty::Begins(role) => Some(Place { role, space }),
        _ => None,
    }
}

/// What may stand behind the tokens, where some schema begins with them; else the first of them with which none does.
pub fn standing_behind<T: HasKind>(alloc: Global, tokens: &[T]) -> Result<Standing, Stopped>
    ensures expected { IfOk result (λ standing. let kinds = map T.kind_of tokens.now in
        Viable kinds × IsExpected ALL_KINDS kinds standing.expected.items) }
    ensures place { IfOk result (λ standing. IsPlaceBehind (map T.kind_of tokens.now) standing.place) }
    ensures fault { IfErr result (IsStop (map T.kind_of tokens.now)) }
{
    let walked = walk_tokens(alloc, tokens)?;
    let expected = walked.front.allowed(alloc)?;
    if walked.front.read < tokens.len() {
        let place = walked.front.read;
        return Err(Stopped::Fault(Fault { place, expected }));
    }
    let place = place_on(&walked.front.stack, walked.space);
    Ok(Standing { expected, place })
}
