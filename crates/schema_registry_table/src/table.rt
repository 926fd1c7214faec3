ghost use Rattle.std.specs.Prelude.{◌≡◌, ◌++◌, ℕ, pos, List, [], ◌∷◌, length, slice_get, string_bytes, FitsSigned};
ghost use Rattle.std.specs.Prelude.{IfOk, OnErr};
ghost use Rattle.std.specs.Int.{w64};
ghost use Rattle.std.specs.Option.{option_map};
ghost use Rattle.sqlite.specs.Held.{state};
ghost use Rattle.sqlite.specs.State.{HasCleanDisk, Survives};
ghost use Rattle.schema_registry_table.specs.Table.{AreRowsOf, EntersText, Keeps, LeavesTexts, Rests, Stands};

use crate::error::TableError;
use crate::rows::{count_rows, find, insert, text_at};
use crate::schema::prepare;
use sha2::{Digest, Sha256};
use sqlite::{Alter, Connection, Error, ErrorCode};
use std::marker::Model;

// No id is left.
const NO_ID: Error = Error::SqliteFailure(ErrorCode::NoRowid);

fn id_of(place: usize) -> Result<i64, Error>
    ensures value { IfOk result (λ id. id ≡ pos place) }
    ensures fits { IfOk result (FitsSigned w64) }
{
    match i64::try_from(place) {
        Ok(id) => Ok(id),
        Err(_) => Err(NO_ID),
    }
}

/// Distinct texts in a database, each known by its place, which counts from 0, and found by its SHA-256. Contracts see
/// the connection and how many texts there are.
pub struct TextTable<S: Alter> {
    conn: Connection<S>,
    count: usize,
}

impl<S: Alter> Model for TextTable<S> {
    ghost use Rattle.sqlite.specs.Held.{state};
    ghost use Rattle.schema_registry_table.specs.Table.{TableState, table_code, KeepsMany};

    ghost Value = { TableState S };

    ghost coded = { table_code S.code };

    ghost view = { λ t. record { held = t.conn; count = t.count } };

    ghost invariant = { λ t. KeepsMany (state S.Store t.conn) t.count };
}

impl<S: Alter + Drop> Drop for TextTable<S> {
    fn drop(self) {
        let TextTable { conn: _, count: _ } = self;
    }
}

impl<S: Alter + Drop> TextTable<S> {
    /// The table in the database of the connection, which is made where the database is empty. A database that holds
    /// anything else is refused.
    pub fn over(mut conn: Connection<S>) -> Result<TextTable<S>, TableError>
        ensures rests { IfOk result (λ it. HasCleanDisk (state S.Store it.held)
            → (texts : List (List ℕ)) × Rests (state S.Store it.held) texts) }
        ensures found { IfOk result (λ it. HasCleanDisk (state S.Store it.held) → (texts : List (List ℕ))
            → Keeps (state S.Store conn).now texts → Rests (state S.Store it.held) texts) }
    {
        prepare(&mut conn)?;
        let count = count_rows(&mut conn)?;
        Ok(TextTable { conn, count })
    }
}

impl<S: Alter> TextTable<S> {
    /// Enters the text where it does not stand yet, and says its place. The row of a new text is committed before the
    /// answer, whole or not at all. On an error the texts stay as they were.
    pub fn enter(&mut self, text: &str) -> Result<usize, Error>
        ensures entered { HasCleanDisk (state S.Store self.new.held)
            → IfOk result (EntersText (state S.Store self.old.held) (state S.Store self.new.held) text.now) }
        ensures left { HasCleanDisk (state S.Store self.new.held) → OnErr result ((texts : List (List ℕ))
            → Stands (state S.Store self.old.held) texts → Stands (state S.Store self.new.held) texts) }
        ensures survives { (texts : List (List ℕ)) → Rests (state S.Store self.old.held) texts
            → Survives (state S.Store self.old.held) (state S.Store self.new.held)
            (λ trees. AreRowsOf (texts ++ text.now ∷ []) (trees 0)) }
    {
        let sum: [u8; 32] = Sha256::digest(text.as_bytes());
        if let Some(place) = find(&mut self.conn, &sum, text)? {
            return Ok(place);
        }
        let place = self.count;
        let id = id_of(place)?;
        insert(&mut self.conn, id, &sum, text)?;
        self.count = place + 1;
        Ok(place)
    }

    /// The text at this place, where there is one.
    pub fn get(&mut self, place: usize) -> Result<Option<String>, Error>
        ensures shown { HasCleanDisk (state S.Store self.new.held) → (texts : List (List ℕ))
            → Rests (state S.Store self.old.held) texts
            → IfOk result (λ found. option_map string_bytes found ≡ slice_get texts place) }
        ensures left { LeavesTexts (state S.Store self.old.held) (state S.Store self.new.held) }
        ensures count { self.new.count ≡ self.old.count }
    {
        if place >= self.count {
            return Ok(None);
        }
        let id = id_of(place)?;
        text_at(&mut self.conn, id)
    }

    /// How many texts there are.
    pub fn len(&self) -> usize
        ensures { HasCleanDisk (state S.Store self.now.held) → (texts : List (List ℕ))
            → Rests (state S.Store self.now.held) texts → result ≡ length texts }
    {
        self.count
    }
}
