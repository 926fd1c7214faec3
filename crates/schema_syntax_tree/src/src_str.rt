ghost use Rattle.std.specs.Prelude.{◌≡◌, ℕ, List, nat_eq, fold, flat_map};
ghost use Rattle.std.specs.Hash as fed;
ghost use Rattle.schema_syntax_tokens.specs.Escapes.{Unescapes};
ghost use Rattle.std.specs.Str.{encode_utf8_all};
ghost use Rattle.std.specs.Cmp.{partial_order_from_own_ties};
ghost use Rattle.std.specs.Cmp.Rules.{comparing};
ghost use Rattle.std.specs.Cmp.Lexicographic.{pointwise};
ghost use Rattle.std.specs.Ordering.{on, as_partial_cmp};
ghost use Rattle.cedar_data.specs.Text.{text_cmp};
ghost use Rattle.std.proofs.Common.{rules};
ghost use Rattle.schema_syntax_tree.specs.Lent.{IsLent, IsLent-prop, fed_alike};

use crate::src_id::SrcId;
use cedar_data::{CloneIn, Text};
use schema_syntax_tokens::{check_escapes, cmp_values, next_piece, same_value, unescape};
use std::alloc::{AllocError, Global};
use std::cmp::Ordering;
use std::hash::{Hash, Hasher};
use std::marker::Model;

/// The body of a string of a source. Contracts see the characters that it stands for.
pub struct SrcStr<'a> {
    body: &'a str,
    ghost stands: { IsLent body.now } by { IsLent-prop body.now },
}

impl<'a> Drop for SrcStr<'a> {
    fn drop(self) {
        let SrcStr { body: _body } = self;
    }
}

impl<'a> Model for SrcStr<'a> {
    ghost use Rattle.std.specs.Prelude.{List, ℕ};
    ghost use Rattle.std.specs.Coded.{coded_list, coded_ℕ};

    ghost Value = { List ℕ };

    ghost coded = { coded_list coded_ℕ };

    ghost view = { λ s. s.stands.0 };
}

impl<'a> SrcStr<'a> {
    ghost use Rattle.std.specs.Prelude.{◌≡◌, IfOk, MatchOption, MatchResult};
    ghost use Rattle.schema_syntax_tokens.specs.Escapes.{Unescapes, BadEscape};
    ghost use Rattle.schema_syntax_tree.specs.Lent.{StandsForNothing};

    /// The string with this body, or the place of its first backslash that begins no escape.
    pub fn read(body: &'a str) -> Result<SrcStr<'a>, usize>
        ensures { MatchResult result (λ s. Unescapes body.now s) (BadEscape body.now) }
    {
        match check_escapes(body) {
            Ok(()) => Ok(SrcStr { body }),
            Err(at) => Err(at),
        }
    }

    /// The string with this body, and `None` exactly where it stands for nothing.
    pub fn new(body: &'a str) -> Option<SrcStr<'a>>
        ensures { MatchOption result (StandsForNothing body.now) (λ s. Unescapes body.now s) }
    {
        match SrcStr::read(body) {
            Ok(read) => Some(read),
            Err(_) => None,
        }
    }

    /// The body.
    pub fn raw(&self) -> &'a str
        ensures { ∥ Unescapes result.now self.now ∥₁ }
    {
        self.body
    }

    /// Another lending of the slice.
    pub fn again(&self) -> SrcStr<'a>
        ensures { result ≡ self.now }
    {
        SrcStr { body: self.body }
    }

    /// A text of its own.
    pub fn to_text(&self, alloc: Global) -> Result<Text, AllocError>
        ensures { IfOk result (λ text. text ≡ self.now) }
    {
        match unescape(alloc, self.body) {
            Ok(text) => Ok(text),
            Err(_) => Err(AllocError),
        }
    }
}

impl<'a> CloneIn for SrcStr<'a> {
    fn clone_in(&self, alloc: Global) -> Result<Self, AllocError> {
        Ok(self.again())
    }
}

impl<'a> PartialEq for SrcStr<'a> {
    ghost eq = { on encode_utf8_all (pointwise nat_eq) };

    ghost laws = { Prim.search (comparing, rules) };

    fn eq(&self, other: &SrcStr<'a>) -> bool {
        same_value(self.raw(), other.raw())
    }
}

impl<'a> Eq for SrcStr<'a> {
    ghost laws = { Prim.search (comparing, rules) };
}

impl<'a> PartialOrd for SrcStr<'a> {
    ghost partial_cmp = { as_partial_cmp text_cmp };

    ghost laws = { partial_order_from_own_ties (Prim.search (comparing, rules)) (Prim.search (comparing, rules)) };

    fn partial_cmp(&self, other: &SrcStr<'a>) -> Option<Ordering> {
        Some(self.cmp(other))
    }
}

impl<'a> Ord for SrcStr<'a> {
    ghost cmp = { text_cmp };

    ghost total = { Prim.search (comparing, rules) };

    ghost matches_partial_cmp = { Prim.search (comparing, rules) };

    ghost matches_eq = { Prim.search (comparing, rules) };

    fn cmp(&self, other: &SrcStr<'a>) -> Ordering {
        cmp_values(self.raw(), other.raw())
    }
}

// Feeds the characters that the body stands for, one after the other.
fn feed_value<H: Hasher>(body: &str, state: &mut H)
    ensures { (v : List ℕ) → Unescapes body.now v → state.new ≡ fold H.write state.old (flat_map fed.char v) }
{
    let mut rest = body;
    while let Some((character, after)) = next_piece(rest) {
        character.hash(state);
        rest = after;
    }
}

impl<'a> Hash for SrcStr<'a> {
    ghost hash_input = { flat_map fed.char };

    ghost respects_eq = { λ x y same. fed_alike x y same };

    fn hash<H: Hasher>(&self, state: &mut H) {
        feed_value(self.raw(), state);
    }
}

/// Lent strings are compared as texts of their own are.
pub fn compared_as_texts()
    ensures eq { ⟦<SrcStr<'static> as PartialEq>⟧.eq ≡ ⟦<Text as PartialEq>⟧.eq }
    ensures cmp { ⟦<SrcStr<'static> as Ord>⟧.cmp ≡ ⟦<Text as Ord>⟧.cmp }
{}

impl<'a> SrcStr<'a> {
    ghost use Rattle.std.specs.Prelude.{◌≡◌};

    /// A word, which stands for itself.
    pub fn from_id(word: &SrcId<'a>) -> SrcStr<'a>
        ensures { result ≡ word.now.text }
    {
        SrcStr {
            body: word.as_str(),
        }
    }
}
