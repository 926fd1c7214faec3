ghost use Rattle.std.specs.Prelude.{◌≡◌, [], length, slice_get, IfOk, IfErr, OnErr};
ghost use Rattle.std.specs.Option.{option_map};
ghost use Rattle.cedar_names.specs.CanonicalText.{canonical_text};
ghost use Rattle.cedar_names.specs.Meaning.{SchemaMeaning};
ghost use Rattle.cedar_schema_core.specs.Meanings.{TextMeaning};
ghost use Rattle.schema_registry_entries.specs.Entries.{IsEntered};
ghost use Rattle.schema_registry.specs.Submissions.{IsSubmitRefusal};

use crate::submit_error::SubmitError;
use cedar_names::ExtensionTable;
use cedar_schema_core::{RecoverError, recover_schema, refused_or_valid};
use schema_registry_entries::Entries;
use std::alloc::Global;
use std::marker::Model;

/// Schemas under one table of extension types, one entry for each meaning. An entry is the canonical text of its
/// meaning; its id is its place, which counts from 0. Contracts see the texts, as bytes, and the table.
#[derive(Drop)]
pub struct Registry {
    table: ExtensionTable,
    entries: Entries,
}

impl Model for Registry {
    ghost use Rattle.schema_registry.specs.Submissions.{RegistryState};

    ghost Value = { RegistryState };

    ghost view = { λ r. record { texts = r.entries; table = r.table } };
}

impl Registry {
    /// A registry with no entries under this table.
    pub fn new(alloc: Global, table: ExtensionTable) -> Registry
        ensures { result ≡ record { texts = []; table = table } }
    {
        Registry {
            table,
            entries: Entries::new(alloc),
        }
    }

    /// The id of the text's meaning, which is entered where it does not stand yet. A text that is not valid is refused,
    /// as `recover_schema` refuses it. On an error the registry stays as it was.
    pub fn submit(&mut self, text: &str) -> Result<usize, SubmitError>
        ensures entered { IfOk result (λ id. (m : SchemaMeaning) × TextMeaning text.now self.old.table m
            × IsEntered (canonical_text m) self.old.texts id self.new.texts) }
        ensures table { self.new.table ≡ self.old.table }
        ensures refused { IfErr result (IsSubmitRefusal text.now self.old.table) }
        ensures unchanged { OnErr result (self.new ≡ self.old) }
    {
        refused_or_valid();
        match recover_schema(self.entries.allocator(), text, &self.table) {
            Ok(recovered) => Ok(self.entries.enter(recovered.text)?),
            Err(RecoverError::Memory) => Err(SubmitError::Memory),
            Err(error) => Err(SubmitError::Refused(error)),
        }
    }

    /// The canonical text with this id, where there is one.
    pub fn entry(&self, id: usize) -> Option<&str>
        ensures { option_map (λ t. t.now) result ≡ slice_get self.now.texts id }
    {
        self.entries.get(id)
    }

    /// How many entries there are.
    pub fn len(&self) -> usize
        ensures { result ≡ length self.now.texts }
    {
        self.entries.len()
    }
}
