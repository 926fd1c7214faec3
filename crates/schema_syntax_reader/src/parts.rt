ghost use Rattle.std.specs.List.{All, AllZip, flat_map};
ghost use Rattle.schema_syntax_reader.specs.Readings.{Reads};
ghost use Rattle.schema_syntax_reader.specs.Trees.{IsOptional};

use crate::stopped::Stopped;
use cedar_data::{List, NonEmpty};
use std::alloc::Global;

/// A kind of parts of a syntax: where it is read, its sites, and what it stands for.
pub trait Part<'a> {
    ghost use Rattle.std.specs.Prelude.{ℕ, List};
    ghost use Rattle.schema_syntax_reader.specs.Sites.{Site};
    ghost use Rattle.schema_syntax_reader.specs.Readings.{Reads};

    /// The syntax of a part.
    type Raw: Drop;

    /// What a part stands for.
    type Item: Drop;

    ghost fits: { List ℕ → Self.Raw → Type 0 };

    ghost sites: { Self.Raw → List Site };

    ghost stands_for: { List ℕ → Self.Raw → Self.Item → Type 0 };

    /// What the part stands for, or the fault of a site of it; or out of memory.
    fn read(alloc: Global, text: &'a str, raw: Self::Raw) -> Result<Self::Item, Stopped>
        requires { fits text.now raw }
        ensures { Reads text.now (sites raw) (stands_for text.now raw) result };
}

// The parts, in order, of which there are some. Mostly there are none, and no room is needed for these.
#[inline(never)]
fn each<'a, P: Part<'a>>(
    alloc: Global,
    text: &'a str,
    raws: Vec<P::Raw>,
) -> Result<Vec<P::Item>, Stopped>
    requires { All (P.fits text.now) raws.items }
    ensures { Reads text.now (flat_map P.sites raws.items)
        (λ items. AllZip (P.stands_for text.now) raws.items items.items) result }
{
    let mut items = Vec::with_capacity(alloc, raws.len())?;
    for raw in raws {
        let item = P::read(alloc, text, raw)?;
        items.push_reserved(item);
    }
    Ok(items)
}

// The parts, in order.
pub fn all<'a, P: Part<'a>>(
    alloc: Global,
    text: &'a str,
    raws: List<P::Raw>,
) -> Result<Vec<P::Item>, Stopped>
    requires { All (P.fits text.now) raws }
    ensures { Reads text.now (flat_map P.sites raws) (λ items. AllZip (P.stands_for text.now) raws items.items) result }
{
    if raws.as_slice().is_empty() {
        return Ok(Vec::new(alloc));
    }
    each::<P>(alloc, text, raws.into_vec())
}

// The parts, of which there is one at least.
pub fn some<'a, P: Part<'a>>(
    alloc: Global,
    text: &'a str,
    raws: NonEmpty<P::Raw>,
) -> Result<NonEmpty<P::Item>, Stopped>
    requires { All (P.fits text.now) raws }
    ensures { Reads text.now (flat_map P.sites raws) (λ items. AllZip (P.stands_for text.now) raws items) result }
{
    let (first, others) = raws.into_parts();
    let head = P::read(alloc, text, first)?;
    let tail = all::<P>(alloc, text, List::from_vec(others))?;
    Ok(NonEmpty::from_parts(head, tail))
}

// The parts, where there is one.
pub fn optional<'a, P: Part<'a>>(
    alloc: Global,
    text: &'a str,
    raws: List<P::Raw>,
) -> Result<Option<NonEmpty<P::Item>>, Stopped>
    requires { All (P.fits text.now) raws }
    ensures { Reads text.now (flat_map P.sites raws)
        (λ items. IsOptional text.now (AllZip (P.stands_for text.now)) raws items) result }
{
    match NonEmpty::from_vec(raws.into_vec()) {
        None => Ok(None),
        Some(raws) => {
            let items = some::<P>(alloc, text, raws)?;
            Ok(Some(items))
        }
    }
}
