ghost use Rattle.std.specs.Prelude.{◌≡◌, true, nat_eq};
ghost use Rattle.std.specs.Hash as fed;
ghost use Rattle.std.specs.Cmp.{partial_order_from_own_ties};
ghost use Rattle.std.specs.Cmp.Rules.{comparing, hashing};
ghost use Rattle.std.specs.Cmp.Lexicographic.{pointwise, slice_cmp};
ghost use Rattle.std.specs.Ordering.{nat_cmp, on, as_partial_cmp};
ghost use Rattle.cedar_data.specs.Words.{is_word};
ghost use Rattle.schema_syntax_tree.specs.LentWords.{any_id_utf8};
ghost use Rattle.std.proofs.Common.{rules};

use cedar_data::{CloneIn, Text, compare_bytes, is_word, same_bytes};
use cedar_identifiers::AnyId;
use std::alloc::{AllocError, Global};
use std::cmp::Ordering;
use std::hash::{Hash, Hasher};
use std::marker::Model;

/// A slice of a source that is a word. Contracts see the `AnyId`.
pub struct SrcWord<'a> {
    text: &'a str,
    ghost word: { is_word text.now ≡ true },
}

impl<'a> Drop for SrcWord<'a> {
    fn drop(self) {
        let SrcWord { text: _text } = self;
    }
}

impl<'a> Model for SrcWord<'a> {
    ghost use Rattle.cedar_identifiers.specs.declared.any_id.AnyId.{AnyId};

    ghost Value = { AnyId };

    ghost view = { λ s. record { text = s.text.now; word = s.word } };
}

impl<'a> SrcWord<'a> {
    ghost use Rattle.std.specs.Prelude.{IfOk, MatchOption, false};
    ghost use Rattle.std.specs.Str.{chars, encode_utf8_all};

    /// The slice as a word, and `None` exactly where it is none.
    pub fn new(text: &'a str) -> Option<SrcWord<'a>>
        ensures { MatchOption result (is_word text.now ≡ false) (λ id. id.text ≡ text.now) }
    {
        if is_word(text) {
            Some(SrcWord { text })
        } else {
            None
        }
    }

    /// The slice, which is a word.
    pub fn of(text: &'a str) -> SrcWord<'a>
        requires { is_word text.now ≡ true }
        ensures { result.text ≡ text.now }
    {
        SrcWord { text }
    }

    /// The word.
    pub fn as_str(&self) -> &'a str
        ensures word { result.now ≡ self.now.text }
        ensures characters { chars result.now ≡ self.now.text }
        ensures bytes { result.now ≡ encode_utf8_all self.now.text }
    {
        self.text
    }

    /// Another lending of the slice.
    pub fn again(&self) -> SrcWord<'a>
        ensures { result ≡ self.now }
    {
        SrcWord { text: self.text }
    }

    /// An `AnyId` of its own.
    pub fn to_any_id(&self, alloc: Global) -> Result<AnyId, AllocError>
        ensures { IfOk result (λ id. id ≡ self.now) }
    {
        Ok(AnyId {
            text: Text::from_str(alloc, self.text)?,
        })
    }
}

impl<'a> CloneIn for SrcWord<'a> {
    fn clone_in(&self, alloc: Global) -> Result<Self, AllocError> {
        Ok(self.again())
    }
}

impl<'a> PartialEq for SrcWord<'a> {
    ghost eq = { on any_id_utf8 (pointwise nat_eq) };

    ghost laws = { Prim.search (comparing, rules) };

    fn eq(&self, other: &SrcWord<'a>) -> bool {
        same_bytes(self.as_str(), other.as_str())
    }
}

impl<'a> Eq for SrcWord<'a> {
    ghost laws = { Prim.search (comparing, rules) };
}

impl<'a> PartialOrd for SrcWord<'a> {
    ghost partial_cmp = { as_partial_cmp (on any_id_utf8 (slice_cmp nat_cmp)) };

    ghost laws = { partial_order_from_own_ties (Prim.search (comparing, rules)) (Prim.search (comparing, rules)) };

    fn partial_cmp(&self, other: &SrcWord<'a>) -> Option<Ordering> {
        Some(self.cmp(other))
    }
}

impl<'a> Ord for SrcWord<'a> {
    ghost cmp = { on any_id_utf8 (slice_cmp nat_cmp) };

    ghost total = { Prim.search (comparing, rules) };

    ghost matches_partial_cmp = { Prim.search (comparing, rules) };

    ghost matches_eq = { Prim.search (comparing, rules) };

    fn cmp(&self, other: &SrcWord<'a>) -> Ordering {
        compare_bytes(self.as_str(), other.as_str())
    }
}

impl<'a> Hash for SrcWord<'a> {
    ghost hash_input = { λ id. fed.str (any_id_utf8 id) };

    ghost respects_eq = { Prim.search (hashing, rules) };

    fn hash<H: Hasher>(&self, state: &mut H) {
        self.as_str().hash(state);
    }
}

/// Lent words are compared as ids of their own are.
pub fn compared_as_any_ids()
    ensures eq { ⟦<SrcWord<'static> as PartialEq>⟧.eq ≡ ⟦<AnyId as PartialEq>⟧.eq }
    ensures cmp { ⟦<SrcWord<'static> as Ord>⟧.cmp ≡ ⟦<AnyId as Ord>⟧.cmp }
    ensures hash { ⟦<SrcWord<'static> as Hash>⟧.hash_input ≡ ⟦<AnyId as Hash>⟧.hash_input }
{}
