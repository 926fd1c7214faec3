ghost use Rattle.std.specs.Prelude.{◌≡◌, ℕ, List, length, slice_get, string_bytes, IfOk, IfErr, OnErr};
ghost use Rattle.std.specs.Option.{option_map};
ghost use Rattle.sqlite.specs.Held.{state};
ghost use Rattle.sqlite.specs.State.{HasCleanDisk, Survives};
ghost use Rattle.schema_registry_table.specs.Table.{Keeps, LeavesTexts, Rests, Stands};
ghost use Rattle.schema_registry_store.specs.Stores.{AddsRow, IsStoreRefusal, SubmitsText};

use crate::error::StoreError;
use cedar_names::ExtensionTable;
use cedar_schema_core::{RecoverError, recover_schema, refused_or_valid};
use schema_registry_table::{TableError, TextTable};
use sqlite::{Alter, Connection, Error, File, FileStore};
use std::alloc::Global;
use std::marker::Model;
use std::rt::HostRuntime;

/// Schemas under one table of extension types, one entry for each meaning, in a database. An entry is the canonical
/// text of its meaning; its id is its place, which counts from 0. Contracts see the connection and the table.
pub struct RegistryStore<S: Alter> {
    alloc: Global,
    table: ExtensionTable,
    texts: TextTable<S>,
}

impl<S: Alter> Model for RegistryStore<S> {
    ghost use Rattle.std.specs.Coded.{codes};
    ghost use Rattle.sqlite.specs.Held.{held_code};
    ghost use Rattle.schema_registry_store.specs.Stores.{StoreState};

    ghost Value = { StoreState S };

    ghost coded = { Prim.hlevel (codes, held_code S.code) };

    ghost view = { λ r. record { held = r.texts.held; table = r.table } };
}

impl<S: Alter + Drop> Drop for RegistryStore<S> {
    fn drop(self) {
        let RegistryStore {
            alloc: _,
            table: _,
            texts: _,
        } = self;
    }
}

// The connection to the file at this path. It has no clauses, so that the proof of `open` stays short.
fn connect(rt: &HostRuntime, path: &str) -> Result<Connection<FileStore<File>>, TableError> {
    Ok(Connection::open(rt, path)?)
}

impl RegistryStore<FileStore<File>> {
    /// The registry in the file at this path, which is made where there is none. A file that holds anything else is
    /// refused.
    pub fn open(
        rt: &HostRuntime,
        path: &str,
        table: ExtensionTable,
    ) -> Result<RegistryStore<FileStore<File>>, TableError> {
        RegistryStore::over(rt.alloc(), connect(rt, path)?, table)
    }
}

impl<S: Alter + Drop> RegistryStore<S> {
    /// The registry in the database of the connection, which gets its table where it is empty. A database that holds
    /// anything else is refused.
    pub fn over(
        alloc: Global,
        conn: Connection<S>,
        table: ExtensionTable,
    ) -> Result<RegistryStore<S>, TableError>
        ensures rests { IfOk result (λ it. HasCleanDisk (state S.Store it.held)
            → (texts : List (List ℕ)) × Rests (state S.Store it.held) texts) }
        ensures found { IfOk result (λ it. HasCleanDisk (state S.Store it.held) → (texts : List (List ℕ))
            → Keeps (state S.Store conn).now texts → Rests (state S.Store it.held) texts) }
        ensures table { IfOk result (λ it. it.table ≡ table) }
    {
        let texts = TextTable::over(conn)?;
        Ok(RegistryStore {
            alloc,
            table,
            texts,
        })
    }
}

impl<S: Alter> RegistryStore<S> {
    /// The id of the text's meaning, which is entered where it does not stand yet. A new entry is committed before the
    /// answer, whole or not at all. On an error the entries stay as they were.
    pub fn submit(&mut self, text: &str) -> Result<usize, StoreError>
        ensures entered { HasCleanDisk (state S.Store self.new.held)
            → IfOk result
            (SubmitsText (state S.Store self.old.held) (state S.Store self.new.held) self.old.table text.now) }
        ensures table { self.new.table ≡ self.old.table }
        ensures refused { IfErr result (IsStoreRefusal text.now self.old.table) }
        ensures left { HasCleanDisk (state S.Store self.new.held) → OnErr result ((texts : List (List ℕ))
            → Stands (state S.Store self.old.held) texts → Stands (state S.Store self.new.held) texts) }
        ensures survives { (texts : List (List ℕ)) → Rests (state S.Store self.old.held) texts
            → Survives (state S.Store self.old.held) (state S.Store self.new.held)
            (AddsRow texts self.old.table text.now) }
    {
        refused_or_valid();
        match recover_schema(self.alloc, text, &self.table) {
            Ok(recovered) => Ok(self.texts.enter(recovered.text.as_str())?),
            Err(RecoverError::Memory) => Err(StoreError::Memory),
            Err(error) => Err(StoreError::Refused(error)),
        }
    }

    /// The canonical text with this id, where there is one.
    pub fn entry(&mut self, id: usize) -> Result<Option<String>, Error>
        ensures shown { HasCleanDisk (state S.Store self.new.held) → (texts : List (List ℕ))
            → Rests (state S.Store self.old.held) texts
            → IfOk result (λ found. option_map string_bytes found ≡ slice_get texts id) }
        ensures left { LeavesTexts (state S.Store self.old.held) (state S.Store self.new.held) }
        ensures table { self.new.table ≡ self.old.table }
    {
        self.texts.get(id)
    }

    /// How many entries there are.
    pub fn len(&self) -> usize
        ensures { HasCleanDisk (state S.Store self.now.held) → (texts : List (List ℕ))
            → Rests (state S.Store self.now.held) texts → result ≡ length texts }
    {
        self.texts.len()
    }
}
