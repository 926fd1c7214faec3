ghost use Rattle.std.specs.Prelude.{◌≡◌, ◌++◌, map, IfOk, OnOk};

use cedar_data::NonEmpty;
use std::alloc::{AllocError, Global};

/// A kind of items of a tree, and what each of them is translated to.
pub trait Item<'a> {
    ghost use Rattle.std.specs.Prelude.{◌≡◌, IfOk};

    type Tree;

    type Out: Drop;

    ghost translation: { Self.Tree → Self.Out };

    fn translate(alloc: Global, item: &Self::Tree) -> Result<Self::Out, AllocError>
        ensures { IfOk result (λ out. out ≡ translation item.now) };
}

// Adds what the items are translated to, in order. It stands by itself, so that what calls it needs no room for an
// item.
#[inline(never)]
fn add<'a, I: Item<'a>>(
    alloc: Global,
    translated: &mut Vec<I::Out>,
    items: &[I::Tree],
) -> Result<(), AllocError>
    ensures { OnOk result (translated.new.items ≡ translated.old.items ++ map I.translation items.now) }
{
    for item in items {
        translated.push(I::translate(alloc, item)?)?;
    }
    Ok(())
}

/// What the items are translated to, in order.
pub fn all<'a, I: Item<'a>>(alloc: Global, items: &[I::Tree]) -> Result<Vec<I::Out>, AllocError>
    ensures { IfOk result (λ out. out.items ≡ map I.translation items.now) }
{
    let mut translated = Vec::with_capacity(alloc, items.len())?;
    add::<I>(alloc, &mut translated, items)?;
    Ok(translated)
}

/// What the items are translated to, in order, of which there is one at least.
pub fn some<'a, I: Item<'a>>(
    alloc: Global,
    items: &NonEmpty<I::Tree>,
) -> Result<Vec<I::Out>, AllocError>
    ensures { IfOk result (λ out. out.items ≡ map I.translation items.now) }
{
    let (first, others) = items.parts();
    let mut translated = Vec::with_capacity(alloc, others.len().saturating_add(1))?;
    translated.push(I::translate(alloc, first)?)?;
    add::<I>(alloc, &mut translated, others)?;
    Ok(translated)
}
