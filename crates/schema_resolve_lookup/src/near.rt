ghost use Rattle.std.specs.Prelude.{◌≤◌};

use std::cell::Cell;

// How far it is looked from a recent place to each side.
const NEAR: usize = 32;

/// Where the last two were found of those that were looked up in a list. Most references come in turns, as the parent
/// of an entity type and then an attribute of it, and the next of a kind is near the one before: so it is the one
/// before the last near which the next is looked for first.
#[derive(Drop)]
pub struct Recent {
    last: Cell<usize>,
    before: Cell<usize>,
}

impl Recent {
    /// Nothing was found yet.
    pub fn new() -> Recent {
        Recent {
            last: Cell::new(0),
            before: Cell::new(0),
        }
    }

    /// One was found at this place.
    pub fn found(&self, at: usize) {
        self.before.set(self.last.get());
        self.last.set(at);
    }

    /// From where to where it is looked first among so many.
    pub fn around(&self, len: usize) -> (usize, usize)
        ensures { result.1 ≤ len }
    {
        let place = self.before.get();
        let low = place.saturating_sub(NEAR);
        let high = place.saturating_add(NEAR).min(len);
        (low, high)
    }
}
