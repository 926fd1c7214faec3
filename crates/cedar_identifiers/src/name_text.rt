ghost use Rattle.std.specs.Prelude.{◌≡◌, ◌↔◌, ℕ, Bool, List, IfOk, codes, true, false};
ghost use Rattle.cedar_data.specs.Rows.{joined_by};
ghost use Rattle.cedar_identifiers.specs.Names.{components_of};
ghost use Rattle.cedar_identifiers.specs.NameTexts.{told};

use crate::conditional_name::ConditionalName;
use crate::internal_name::InternalName;
use crate::name::Name;
use crate::raw_name::RawName;
use cedar_data::{CloneIn, Text};
use std::alloc::{AllocError, Global};

/// A name with a text: its components with `::` between two.
pub trait NameText {
    /// Whether whatever is named so has a type, which as written may be left out.
    const TYPED: bool;

    ghost TYPED: { Bool };

    /// The texts of the components, the outermost first.
    ghost components: { Self → List (List ℕ) };

    /// The text of the name, or an error when out of memory.
    fn text(&self, alloc: Global) -> Result<Text, AllocError>
        ensures text { IfOk result (λ text. text ≡ joined_by (codes "::") (components self.now)) };

    /// Names have the same text only where they have the same components.
    ghost tells_apart: { (a b : Self) → joined_by (codes "::") (components a) ≡ joined_by (codes "::") (components b)
        → components a ≡ components b };
}

/// Names have the same text exactly where they have the same components.
pub fn texts_tell_names_apart<N: NameText>(a: &N, b: &N)
    ensures { joined_by (codes "::") (N.components a.now) ≡ joined_by (codes "::") (N.components b.now)
        ↔ N.components a.now ≡ N.components b.now }
{}

impl NameText for InternalName {
    const TYPED: bool = true;

    ghost TYPED = { true };

    ghost components = { components_of };

    ghost tells_apart = { told };

    fn text(&self, alloc: Global) -> Result<Text, AllocError> {
        let mut text = self.first.text.clone_in(alloc)?;
        for id in self.others.as_slice() {
            text.push_str("::")?;
            text.push_text(&id.text)?;
        }
        Ok(text)
    }
}

impl NameText for Name {
    const TYPED: bool = true;

    ghost TYPED = { true };

    ghost components = { λ n. components_of n.name };

    ghost tells_apart = { λ a b. told a.name b.name };

    fn text(&self, alloc: Global) -> Result<Text, AllocError> {
        self.name.text(alloc)
    }
}

impl NameText for RawName {
    const TYPED: bool = false;

    ghost TYPED = { false };

    ghost components = { λ n. components_of n.name };

    ghost tells_apart = { λ a b. told a.name b.name };

    fn text(&self, alloc: Global) -> Result<Text, AllocError> {
        self.name.text(alloc)
    }
}

impl NameText for ConditionalName {
    const TYPED: bool = true;

    ghost TYPED = { true };

    ghost components = { λ n. components_of n.raw.name };

    ghost tells_apart = { λ a b. told a.raw.name b.raw.name };

    fn text(&self, alloc: Global) -> Result<Text, AllocError> {
        self.raw.text(alloc)
    }
}
