ghost use Rattle.std.specs.Prelude.{◌≡◌, [], length, map, slice_get, IfOk, OnErr};
ghost use Rattle.std.specs.Option.{option_map};
ghost use Rattle.schema_registry_entries.specs.Entries.{IsEntered};

use cedar_data::Text;
use indexmap::IndexSet;
use std::alloc::{AllocError, Global};
use std::marker::Model;

/// Distinct texts, each known by its place, which counts from 0. Contracts see the list of their bytes.
#[derive(Drop)]
pub struct Entries {
    texts: IndexSet<Text>,
}

impl Model for Entries {
    ghost use Rattle.std.specs.Prelude.{ℕ, List, map};
    ghost use Rattle.std.specs.Str.{encode_utf8_all};

    ghost Value = { List (List ℕ) };

    ghost view = { λ e. map encode_utf8_all e.texts.keys };
}

impl Entries {
    ghost use Rattle.std.specs.Str.{encode_utf8_all};

    /// No texts.
    pub fn new(alloc: Global) -> Entries
        ensures { result ≡ [] }
    {
        Entries {
            texts: IndexSet::new(alloc),
        }
    }

    /// The allocator of the texts.
    pub fn allocator(&self) -> Global {
        *self.texts.allocator()
    }

    /// Enters the text where it does not stand yet, and says its place. Where memory is out, nothing changes.
    pub fn enter(&mut self, text: Text) -> Result<usize, AllocError>
        ensures entered { IfOk result (λ n. IsEntered (encode_utf8_all text) self.old n self.new) }
        ensures unchanged { OnErr result (self.new ≡ self.old) }
    {
        let (place, _) = self.texts.insert_full(text)?;
        Ok(place)
    }

    /// The text at this place, where there is one.
    pub fn get(&self, place: usize) -> Option<&str>
        ensures { option_map (λ t. t.now) result ≡ slice_get self.now place }
    {
        let text = self.texts.get_index(place)?;
        Some(text.as_str())
    }

    /// How many texts there are.
    pub fn len(&self) -> usize
        ensures { result ≡ length self.now }
    {
        self.texts.len()
    }
}
