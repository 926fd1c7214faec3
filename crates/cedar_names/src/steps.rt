ghost use Rattle.std.specs.Prelude.{◌≡◌, ◌+◌, ◌<◌, ℕ, Bool, true, false};
ghost use Rattle.cedar_names.specs.Searches.{one_if};

use std::marker::Model;
use std::sync::ledger::{Book, Ledger, Share};

/// How many steps were taken. It takes no bytes, and only `tick` changes it.
pub struct Steps<L: Ledger> {
    book: Book<L>,
    share: Share<L>,
}

impl<L: Ledger + Drop> Drop for Steps<L> {
    fn drop(self) {
        let Steps {
            book: _book,
            share: _share,
        } = self;
    }
}

impl<L: Ledger> Model for Steps<L> {
    ghost Value = { ℕ };

    ghost view = { λ s. s.book.total };

    ghost invariant = { λ s. 0 < s.share.parts };
}

impl<L: Ledger> Steps<L> {
    /// The steps that this book counts, with a share that has a part.
    pub fn new(book: Book<L>, share: Share<L>) -> Steps<L>
        requires { 0 < share.parts }
        ensures { result ≡ book.total }
    {
        Steps { book, share }
    }

    /// Counts one step more.
    pub fn tick(&mut self)
        ensures { self.new ≡ self.old + 1 }
    {
        self.book.add(&mut self.share, 1);
    }
}

// What is told of each step of a search.
pub(crate) trait Counter {
    // whether it counts
    ghost counts: { Bool };

    ghost taken: { Self → ℕ };

    fn note(&mut self)
        ensures { taken self.new ≡ taken self.old + one_if counts };
}

impl<L: Ledger> Counter for Steps<L> {
    ghost counts = { true };

    ghost taken = { λ s. s };

    fn note(&mut self) {
        self.tick();
    }
}

// Steps that nobody asks for.
#[derive(Drop)]
pub(crate) struct Uncounted {}

impl Counter for Uncounted {
    ghost counts = { false };

    ghost taken = { λ _. 0 };

    fn note(&mut self) {}
}
