ghost use Rattle.std.specs.Prelude.{◌≡◌, ◌≤◌, ◌↔◌, IsSome, IfSome};
ghost use Rattle.std.specs.Prelude.{slice_range};
ghost use Rattle.std.specs.Str.{IsCharBoundary};

use std::marker::Model;

/// A place in a text: from the byte `start` up to, and not including, the byte `end`.
#[derive(Clone, Copy, PartialEq, Eq)]
pub struct Loc {
    pub start: usize,
    pub end: usize,
}

impl Model for Loc {
    ghost use Rattle.std.specs.Prelude.{◌≤◌};
    ghost use Rattle.cedar_data.specs.Span.{Span};

    ghost Value = { Span };

    ghost view = { λ l. record { start = l.start; end = l.end } };

    ghost invariant = { λ l. l.start ≤ l.end };

    ghost inverse = { λ s. record { start = s.start; end = s.end } };
}

impl Loc {
    /// The place from `start` to `end`, which is not before it.
    pub fn new(start: usize, end: usize) -> Loc
        requires { start ≤ end }
        ensures { result ≡ record { start = start; end = end } }
    {
        Loc { start, end }
    }

    /// What stands there in the source, and `None` exactly where the place is no range of characters of it.
    pub fn snippet<'a>(&self, source: &'a str) -> Option<&'a str>
        ensures some { IsSome result ↔ (IsCharBoundary source.now self.now.start
            × IsCharBoundary source.now self.now.end) }
        ensures text { IfSome result (λ text. text.now ≡ slice_range source.now self.now.start self.now.end) }
    {
        if !source.is_char_boundary(self.start) {
            return None;
        }
        if !source.is_char_boundary(self.end) {
            return None;
        }
        Some(&source[self.start..self.end])
    }
}
