ghost use Rattle.std.specs.Prelude.{◌≡◌, ◌++◌, [], ◌∷◌, List, Option, Some, OnOk, ◌+◌};
ghost use Rattle.schema_syntax_tokens.specs.declared.token.Token.{Token};
ghost use Rattle.schema_syntax_parser.specs.Reading.{Gives, Done, all_at, many_at, link_at, closed_at};
ghost use Rattle.schema_syntax_parser.specs.Turns.{turn_of};

use crate::front::is_of;
use crate::stop::Stop;
use cedar_data::{List, NonEmpty};
use schema_syntax_grammar::TokenKind;
use schema_syntax_tokens::ShortToken;
use std::alloc::{AllocError, Global};

/// One turn of a list: nothing more, its last item, or an item that others follow; and the tokens behind it.
#[derive(Drop)]
pub enum Turn<'a, T> {
    /// Nothing more.
    Done(&'a [ShortToken]),
    /// The last item.
    Last(T, &'a [ShortToken]),
    /// An item that others follow.
    More(T, &'a [ShortToken]),
}

/// A list of items, read turn by turn.
pub trait Turns {
    ghost use Rattle.std.specs.Prelude.{List, Option};
    ghost use Rattle.schema_syntax_tokens.specs.declared.token.Token.{Token as Part};
    ghost use Rattle.schema_syntax_parser.specs.Reading as reading;

    /// An item of the list.
    type Item: Drop;

    ghost turns: { List Part → Option (reading.Turn Self.Item) };

    /// The next turn of the list, at the front of the tokens.
    fn turn(alloc: Global, tokens: &[ShortToken]) -> Result<Turn<'_, Self::Item>, Stop>
        ensures { Gives turn_of result (turns tokens.now) };
}

// Adds an item behind the others. A first one gets room for itself alone, since most lists have one item.
pub fn push_item<T: Drop>(items: &mut Vec<T>, item: T) -> Result<(), AllocError>
    ensures { OnOk result (items.new.items ≡ items.old.items ++ item ∷ []) }
{
    if items.is_empty() {
        items.reserve_exact(1)?;
    }
    items.push(item)?;
    Ok(())
}

// The items of a list, at most one more than so many, and the tokens behind it. Room is made at once for so many.
fn up_to<L: Turns>(
    alloc: Global,
    room: usize,
    most: usize,
    tokens: &[ShortToken],
) -> Result<(Vec<L::Item>, &[ShortToken]), Stop>
    ensures { Gives (λ r. (r.0.items, r.1.now)) result (many_at L.turns (most + 1) tokens.now) }
{
    let mut items = Vec::with_capacity(alloc, room)?;
    let mut rest = tokens;
    let mut left = most;
    loop {
        match L::turn(alloc, rest)? {
            Turn::Done(after) => return Ok((items, after)),
            Turn::Last(item, after) => {
                push_item(&mut items, item)?;
                return Ok((items, after));
            }
            Turn::More(item, after) => {
                if left == 0 {
                    return Err(Stop::Mismatch);
                }
                push_item(&mut items, item)?;
                left -= 1;
                rest = after;
            }
        }
    }
}

// The items of a list, and the tokens behind it.
pub fn all<L: Turns>(
    alloc: Global,
    tokens: &[ShortToken],
) -> Result<(List<L::Item>, &[ShortToken]), Stop>
    ensures { Gives (λ r. (r.0, r.1.now)) result (all_at L.turns tokens.now) }
{
    all_in::<L>(alloc, 0, tokens)
}

// The items of a list that has room for so many from the first on, and the tokens behind it.
pub fn all_in<L: Turns>(
    alloc: Global,
    room: usize,
    tokens: &[ShortToken],
) -> Result<(List<L::Item>, &[ShortToken]), Stop>
    ensures { Gives (λ r. (r.0, r.1.now)) result (all_at L.turns tokens.now) }
{
    let (items, rest) = up_to::<L>(alloc, room, tokens.len(), tokens)?;
    Ok((List::from_vec(items), rest))
}

// The items of a list that has an item, and the tokens behind it. One item takes no memory.
pub fn some<L: Turns>(
    alloc: Global,
    tokens: &[ShortToken],
) -> Result<(NonEmpty<L::Item>, &[ShortToken]), Stop>
    requires { (ts after : List Token) → L.turns ts ≡ Some (Done after) → ⊥ }
    ensures { Gives (λ r. (r.0, r.1.now)) result (all_at L.turns tokens.now) }
{
    match L::turn(alloc, tokens)? {
        Turn::Done(_) => Err(Stop::Mismatch),
        Turn::Last(item, after) => Ok((NonEmpty::new(alloc, item), after)),
        Turn::More(item, after) => {
            let left = tokens.len();
            if left == 0 {
                return Err(Stop::Mismatch);
            }
            let (others, rest) = up_to::<L>(alloc, 0, left - 1, after)?;
            Ok((NonEmpty::from_parts(item, others), rest))
        }
    }
}

// An item, and others where the separator follows.
pub fn link<T: Drop>(item: T, separator: TokenKind, rest: &[ShortToken]) -> Turn<'_, T>
    ensures { turn_of result ≡ link_at separator item rest.now }
{
    match rest {
        [first, after @ ..] if is_of(first, separator) => Turn::More(item, after),
        _ => Turn::Last(item, rest),
    }
}

// An item before the closing token, or before a comma.
pub fn closed<T: Drop>(item: T, close: TokenKind, rest: &[ShortToken]) -> Result<Turn<'_, T>, Stop>
    ensures { Gives turn_of result (closed_at close item rest.now) }
{
    match rest {
        [first, after @ ..] if is_of(first, close) => Ok(Turn::Last(item, after)),
        [first, after @ ..] if is_of(first, TokenKind::Comma) => Ok(Turn::More(item, after)),
        _ => Err(Stop::Mismatch),
    }
}
