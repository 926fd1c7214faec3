ghost use Rattle.std.specs.Prelude.{◌≡◌, true, nat_eq};
ghost use Rattle.std.specs.Hash as fed;
ghost use Rattle.std.specs.Cmp.{partial_order_from_own_ties};
ghost use Rattle.std.specs.Cmp.Rules.{comparing, hashing};
ghost use Rattle.std.specs.Cmp.Lexicographic.{pointwise, slice_cmp};
ghost use Rattle.std.specs.Ordering.{nat_cmp, on, as_partial_cmp};
ghost use Rattle.cedar_identifiers.specs.Words.{is_id};
ghost use Rattle.schema_syntax_tree.specs.LentWords.{id_utf8};
ghost use Rattle.std.proofs.Common.{rules};

use crate::word_tests::is_id;
use cedar_data::{CloneIn, Text, compare_bytes, same_bytes};
use cedar_identifiers::Id;
use std::alloc::{AllocError, Global};
use std::cmp::Ordering;
use std::hash::{Hash, Hasher};
use std::marker::Model;

/// A slice of a source that is an `Id`. Contracts see the `Id`.
pub struct SrcId<'a> {
    text: &'a str,
    ghost word: { is_id text.now ≡ true },
}

impl<'a> Drop for SrcId<'a> {
    fn drop(self) {
        let SrcId { text: _text } = self;
    }
}

impl<'a> Model for SrcId<'a> {
    ghost use Rattle.cedar_identifiers.specs.declared.id.Id.{Id};

    ghost Value = { Id };

    ghost view = { λ s. record { text = s.text.now; word = s.word } };
}

impl<'a> SrcId<'a> {
    ghost use Rattle.std.specs.Prelude.{IfOk, MatchOption, false};
    ghost use Rattle.std.specs.Str.{chars, encode_utf8_all};

    /// The slice as an `Id`, and `None` exactly where it is none.
    pub fn new(text: &'a str) -> Option<SrcId<'a>>
        ensures { MatchOption result (is_id text.now ≡ false) (λ id. id.text ≡ text.now) }
    {
        if is_id(text) {
            Some(SrcId { text })
        } else {
            None
        }
    }

    /// The slice, which is an `Id`.
    pub fn of(text: &'a str) -> SrcId<'a>
        requires { is_id text.now ≡ true }
        ensures { result.text ≡ text.now }
    {
        SrcId { text }
    }

    /// The word.
    pub fn as_str(&self) -> &'a str
        ensures word { result.now ≡ self.now.text }
        ensures characters { chars result.now ≡ self.now.text }
        ensures bytes { result.now ≡ encode_utf8_all self.now.text }
    {
        self.text
    }

    /// Another lending of the slice.
    pub fn again(&self) -> SrcId<'a>
        ensures { result ≡ self.now }
    {
        SrcId { text: self.text }
    }

    /// An `Id` of its own.
    pub fn to_id(&self, alloc: Global) -> Result<Id, AllocError>
        ensures { IfOk result (λ id. id ≡ self.now) }
    {
        Ok(Id {
            text: Text::from_str(alloc, self.text)?,
        })
    }
}

impl<'a> CloneIn for SrcId<'a> {
    fn clone_in(&self, alloc: Global) -> Result<Self, AllocError> {
        Ok(self.again())
    }
}

impl<'a> PartialEq for SrcId<'a> {
    ghost eq = { on id_utf8 (pointwise nat_eq) };

    ghost laws = { Prim.search (comparing, rules) };

    fn eq(&self, other: &SrcId<'a>) -> bool {
        same_bytes(self.as_str(), other.as_str())
    }
}

impl<'a> Eq for SrcId<'a> {
    ghost laws = { Prim.search (comparing, rules) };
}

impl<'a> PartialOrd for SrcId<'a> {
    ghost partial_cmp = { as_partial_cmp (on id_utf8 (slice_cmp nat_cmp)) };

    ghost laws = { partial_order_from_own_ties (Prim.search (comparing, rules)) (Prim.search (comparing, rules)) };

    fn partial_cmp(&self, other: &SrcId<'a>) -> Option<Ordering> {
        Some(self.cmp(other))
    }
}

impl<'a> Ord for SrcId<'a> {
    ghost cmp = { on id_utf8 (slice_cmp nat_cmp) };

    ghost total = { Prim.search (comparing, rules) };

    ghost matches_partial_cmp = { Prim.search (comparing, rules) };

    ghost matches_eq = { Prim.search (comparing, rules) };

    fn cmp(&self, other: &SrcId<'a>) -> Ordering {
        compare_bytes(self.as_str(), other.as_str())
    }
}

impl<'a> Hash for SrcId<'a> {
    ghost hash_input = { λ id. fed.str (id_utf8 id) };

    ghost respects_eq = { Prim.search (hashing, rules) };

    fn hash<H: Hasher>(&self, state: &mut H) {
        self.as_str().hash(state);
    }
}

/// Lent words are compared as ids of their own are.
pub fn compared_as_ids()
    ensures eq { ⟦<SrcId<'static> as PartialEq>⟧.eq ≡ ⟦<Id as PartialEq>⟧.eq }
    ensures cmp { ⟦<SrcId<'static> as Ord>⟧.cmp ≡ ⟦<Id as Ord>⟧.cmp }
    ensures hash { ⟦<SrcId<'static> as Hash>⟧.hash_input ≡ ⟦<Id as Hash>⟧.hash_input }
{}
