ghost use Rattle.std.specs.Prelude.{◌≡◌, ◌++◌, [], List, ℕ, true, nat_eq, IfOk, OnOk, OnErr};
ghost use Rattle.std.specs.Str.{chars, encode_utf8_all, all_scalars};
ghost use Rattle.std.specs.String.{string_bytes};
ghost use Rattle.std.specs.Hash as fed;
ghost use Rattle.std.specs.Cmp.{partial_order_from_own_ties};
ghost use Rattle.std.specs.Cmp.Rules.{comparing, hashing};
ghost use Rattle.std.specs.Cmp.Lexicographic.{pointwise};
ghost use Rattle.std.specs.Ordering.{on, as_partial_cmp};
ghost use Rattle.cedar_data.specs.Text.{text_cmp, IsTextFront};
ghost use Rattle.std.proofs.Common.{rules};

use crate::byte_by_byte::{compare_bytes, same_bytes};
use crate::clone_in::CloneIn;
use arrayvec::ArrayString;
use std::alloc::{AllocError, Global};
use std::cmp::Ordering;
use std::hash::{Hash, Hasher};
use std::marker::Model;

/// An owned text, which contracts see as its list of characters. It is ordered by its bytes in UTF-8. A text of at most
/// 16 bytes stands in the value itself and takes no memory.
pub struct Text {
    held: Held,
    alloc: Global,
}

// Where the characters stand: in the value itself, or in a string.
#[derive(Drop)]
enum Held {
    Short(ArrayString<16>),
    Long(String),
}

impl Drop for Text {
    fn drop(self) {
        let Text {
            held: _held,
            alloc: _alloc,
        } = self;
    }
}

impl Model for Text {
    ghost use Rattle.std.specs.Prelude.{List, ℕ};
    ghost use Rattle.std.specs.Coded.{coded_list, coded_ℕ};
    ghost use Rattle.std.specs.Str.{chars};
    ghost use Rattle.cedar_data.specs.Held.{held_bytes};

    ghost Value = { List ℕ };

    ghost coded = { coded_list coded_ℕ };

    ghost view = { λ t. chars (held_bytes t.held) };
}

impl Held {
    ghost use Rattle.std.specs.Prelude.{◌≡◌, ◌++◌, ◌≤◌, if◌then◌else◌, take, length, IfOk};
    ghost use Rattle.std.specs.Result.{is_ok};
    ghost use Rattle.std.specs.Str.{IsUtf8};
    ghost use Rattle.std.specs.String.Boundary.{IsSplitPoint};
    ghost use Rattle.cedar_data.specs.Held.{held_bytes};

    // A copy of the text.
    fn from_str(alloc: Global, s: &str) -> Result<Held, AllocError>
        ensures { IfOk result (λ held. held_bytes held ≡ s.now) }
    {
        match ArrayString::from(s) {
            Ok(text) => Ok(Held::Short(text)),
            Err(_) => Ok(Held::Long(String::from_str(alloc, s)?)),
        }
    }

    // The text, lent.
    fn as_str(&self) -> &str
        ensures bytes { result.now ≡ held_bytes self.now }
        ensures text { IsUtf8 (held_bytes self.now) }
    {
        match self {
            Held::Short(text) => text.as_str(),
            Held::Long(text) => text.as_str(),
        }
    }

    // Adds the bytes at the end. A text that they do not fit into becomes a string first.
    fn push_str(&mut self, alloc: Global, more: &str) -> Result<(), AllocError>
        ensures bytes { held_bytes self.new ≡ (if is_ok result then held_bytes self.old ++ more.now
            else held_bytes self.old) }
        ensures text { IsUtf8 (held_bytes self.old) }
    {
        let _text = self.as_str();
        match self {
            Held::Short(text) => {
                if text.try_push_str(more).is_ok() {
                    return Ok(());
                }
                let mut long = String::from_str(alloc, text.as_str())?;
                long.push_str(more)?;
                *self = Held::Long(long);
                Ok(())
            }
            Held::Long(text) => text.push_str(more),
        }
    }

    // Takes off all but the first bytes, which end where a character does.
    fn truncate(&mut self, len: usize)
        requires { len ≤ length (held_bytes self.old) → IsSplitPoint (held_bytes self.old) len }
        ensures { held_bytes self.new ≡ take len (held_bytes self.old) }
    {
        match self {
            Held::Short(text) => text.truncate(len),
            Held::Long(text) => text.truncate(len),
        }
    }
}

impl Text {
    /// The text without a character, which takes no memory.
    pub fn new(alloc: Global) -> Text
        ensures { result ≡ [] }
    {
        Text::from_string(String::new(alloc))
    }

    /// A copy of the text.
    pub fn from_str(alloc: Global, s: &str) -> Result<Text, AllocError>
        ensures { IfOk result (λ t. t ≡ chars s.now) }
    {
        let held = Held::from_str(alloc, s)?;
        Ok(Text { held, alloc })
    }

    /// The text that the string holds, which takes no memory.
    pub fn from_string(text: String) -> Text
        ensures { result ≡ chars (string_bytes text) }
    {
        let alloc = *text.allocator();
        Text {
            held: Held::Long(text),
            alloc,
        }
    }

    /// The text, lent as bytes in UTF-8.
    pub fn as_str(&self) -> &str
        ensures bytes { result.now ≡ encode_utf8_all self.now }
        ensures characters { all_scalars self.now ≡ true }
    {
        self.held.as_str()
    }

    /// Adds the characters at the end. When out of memory, the text stays as it was.
    pub fn push_str(&mut self, more: &str) -> Result<(), AllocError>
        ensures ok { OnOk result (self.new ≡ self.old ++ chars more.now) }
        ensures err { OnErr result (self.new ≡ self.old) }
    {
        self.held.push_str(self.alloc, more)
    }

    /// Adds the other text at the end. When out of memory, this one stays as it was.
    pub fn push_text(&mut self, more: &Text) -> Result<(), AllocError>
        ensures ok { OnOk result (self.new ≡ self.old ++ more.now) }
        ensures err { OnErr result (self.new ≡ self.old) }
    {
        self.push_str(more.as_str())
    }

    /// Takes off all but the characters that the text begins with and that are so many bytes long in UTF-8.
    pub fn truncate(&mut self, len: usize)
        requires { (front : List ℕ) × IsTextFront self.old len front }
        ensures { (front : List ℕ) → IsTextFront self.old len front → self.new ≡ front }
    {
        let _text = self.held.as_str();
        self.held.truncate(len);
    }
}

impl PartialEq for Text {
    ghost eq = { on encode_utf8_all (pointwise nat_eq) };

    ghost laws = { Prim.search (comparing, rules) };

    fn eq(&self, other: &Text) -> bool {
        same_bytes(self.as_str(), other.as_str())
    }
}

impl Eq for Text {
    ghost laws = { Prim.search (comparing, rules) };
}

impl Ord for Text {
    ghost cmp = { text_cmp };

    ghost total = { Prim.search (comparing, rules) };

    ghost matches_partial_cmp = { Prim.search (comparing, rules) };

    ghost matches_eq = { Prim.search (comparing, rules) };

    fn cmp(&self, other: &Text) -> Ordering {
        compare_bytes(self.as_str(), other.as_str())
    }
}

impl PartialOrd for Text {
    ghost partial_cmp = { as_partial_cmp text_cmp };

    ghost laws = { partial_order_from_own_ties (Prim.search (comparing, rules)) (Prim.search (comparing, rules)) };

    fn partial_cmp(&self, other: &Text) -> Option<Ordering> {
        Some(self.cmp(other))
    }
}

impl Hash for Text {
    ghost hash_input = { λ t. fed.str (encode_utf8_all t) };

    ghost respects_eq = { Prim.search (hashing, rules) };

    fn hash<H: Hasher>(&self, state: &mut H) {
        self.as_str().hash(state);
    }
}

impl CloneIn for Text {
    // A short text is copied as the cells that it stands in, not byte by byte.
    fn clone_in(&self, alloc: Global) -> Result<Self, AllocError> {
        match self.held {
            Held::Short(text) => Ok(Text {
                held: Held::Short(text),
                alloc,
            }),
            Held::Long(_) => Text::from_str(alloc, self.as_str()),
        }
    }
}
