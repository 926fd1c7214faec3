//! The statements over the rows of the table.
ghost use Rattle.std.specs.Prelude.{◌≡◌, ◌≤◌, ◌++◌, ℕ, List, [], ◌∷◌, length, pos, slice_get, string_bytes, false};
ghost use Rattle.std.specs.Prelude.{Some, IsTrue, IfOk, OnOk, OnErr, MatchOption};
ghost use Rattle.std.specs.Option.{option_map};
ghost use Rattle.std.specs.List.{Contains};
ghost use Rattle.sha2.specs.Sha256.{sha256};
ghost use Rattle.sqlite.specs.Given.{IsPlain};
ghost use Rattle.sqlite.specs.Listing.{understood};
ghost use Rattle.sqlite.specs.Order.{Row as Values, column};
ghost use Rattle.sqlite.specs.Values.{bound};
ghost use Rattle.sqlite.specs.declared.types.Value.TheVariants.{Int, Text};
ghost use Rattle.sqlite_rules.specs.Lists.{Has};
ghost use Rattle.sqlite.specs.Held.{state};
ghost use Rattle.sqlite.specs.State.{HasCleanDisk, IsUnchanged, Survives, Shown};
ghost use Rattle.sqlite.specs.View.{doubt};
ghost use Rattle.schema_registry_table.specs.Statements.{entry_schema};
ghost use Rattle.schema_registry_table.specs.Table.{IsListedRow, AreRowsOf, Rests, Stands, LeavesTexts, text_in};

use crate::error::TableError;
use sha2::{Digest, Sha256};
use sqlite::types::ValueRef;
use sqlite::{Alter, Connection, Error, Row, params};

const FIND: &str = "SELECT id FROM entry WHERE sum = ?1 AND text = ?2";

const INSERT: &str = "INSERT INTO entry VALUES (?1, ?2, ?3)";

const LIST: &str = "SELECT id, sum, text FROM entry ORDER BY id";

const SHOW: &str = "SELECT text FROM entry WHERE id = ?1";

// Asks a query that only reads.
fn ask<S: Alter>(
    conn: &mut Connection<S>,
    sql: &str,
    params: &[ValueRef<'_>],
) -> Result<Vec<Row>, Error>
    requires { IsPlain (understood entry_schema sql.now) }
    ensures shown { HasCleanDisk (state S.Store conn.new) → IfOk result (λ rows.
        Shown sql.now (bound params.now) (state S.Store conn.old) (state S.Store conn.new) rows.items) }
    ensures left { LeavesTexts (state S.Store conn.old) (state S.Store conn.new) }
{
    conn.query_all(sql, params)
}

// The place in the first row.
fn first_place(rows: &[Row]) -> Result<Option<usize>, Error>
    ensures { IfOk result (λ found. MatchOption found (rows.now ≡ [])
        (λ n. (row : Values) × Has rows.now row × (column row 0 ≡ Int (pos n)))) }
{
    let Some(row) = rows.first() else {
        return Ok(None);
    };
    let id: i64 = row.get(0)?;
    match usize::try_from(id) {
        Ok(place) => Ok(Some(place)),
        Err(_) => Err(Error::IntegralValueOutOfRange(0)),
    }
}

// The text in the first row.
fn first_text(rows: &[Row]) -> Result<Option<String>, Error>
    ensures { IfOk result (λ found. MatchOption (option_map string_bytes found) (rows.now ≡ [])
        (λ t. (row : Values) × Has rows.now row × (column row 0 ≡ Text t))) }
{
    match rows.first() {
        Some(row) => Ok(Some(row.get(0)?)),
        None => Ok(None),
    }
}

// The place of the text, where it stands in the table. The sum finds it, and the texts are compared too.
pub(crate) fn find<S: Alter>(
    conn: &mut Connection<S>,
    sum: &[u8],
    text: &str,
) -> Result<Option<usize>, Error>
    ensures found { HasCleanDisk (state S.Store conn.new) → (texts : List (List ℕ))
        → Rests (state S.Store conn.old) texts → sum.now ≡ sha256 text.now
        → IfOk result (λ found. MatchOption found (Contains texts text.now → ⊥)
        (λ place. slice_get texts place ≡ Some text.now)) }
    ensures rests { HasCleanDisk (state S.Store conn.new) → (texts : List (List ℕ))
        → Stands (state S.Store conn.old) texts
        → OnOk result (Rests (state S.Store conn.old) texts × Rests (state S.Store conn.new) texts) }
    ensures left { LeavesTexts (state S.Store conn.old) (state S.Store conn.new) }
{
    let rows = ask(conn, FIND, params![sum, text])?;
    first_place(&rows)
}

// The text at this place.
pub(crate) fn text_at<S: Alter>(conn: &mut Connection<S>, id: i64) -> Result<Option<String>, Error>
    ensures shown { HasCleanDisk (state S.Store conn.new) → (texts : List (List ℕ))
        → Rests (state S.Store conn.old) texts → (place : ℕ) → id ≡ pos place
        → IfOk result (λ found. option_map string_bytes found ≡ slice_get texts place) }
    ensures left { LeavesTexts (state S.Store conn.old) (state S.Store conn.new) }
{
    let rows = ask(conn, SHOW, params![id])?;
    first_text(&rows)
}

// Adds a row, which is committed.
pub(crate) fn insert<S: Alter>(
    conn: &mut Connection<S>,
    id: i64,
    sum: &[u8],
    text: &str,
) -> Result<(), Error>
    ensures added { HasCleanDisk (state S.Store conn.new) → (texts : List (List ℕ))
        → Rests (state S.Store conn.old) texts → id ≡ pos (length texts) → sum.now ≡ sha256 text.now
        → OnOk result (Rests (state S.Store conn.new) (texts ++ text.now ∷ [])) }
    ensures left { HasCleanDisk (state S.Store conn.new)
        → OnErr result ((texts : List (List ℕ)) → Stands (state S.Store conn.old) texts
        → Stands (state S.Store conn.new) texts) }
    ensures clean { doubt (state S.Store conn.old).is_clean ≤ doubt (state S.Store conn.new).is_clean }
    ensures survives { Survives (state S.Store conn.old) (state S.Store conn.new) (λ trees. (texts : List (List ℕ))
        → Rests (state S.Store conn.old) texts → id ≡ pos (length texts) → sum.now ≡ sha256 text.now
        → AreRowsOf (texts ++ text.now ∷ []) (trees 0)) }
{
    conn.execute(INSERT, params![id, sum, text])?;
    Ok(())
}

// Whether the row of a list shows this id, some text and the text's sum.
fn is_listed(row: &Row, id: usize) -> bool
    ensures { IsTrue result → IsListedRow id (text_in row.now) row.now }
{
    let (Ok(ValueRef::Int(number)), Ok(ValueRef::Blob(sum)), Ok(ValueRef::Text(text))) = (
        row.get_ref(0),
        row.get_ref(1),
        row.get_ref(2),
    ) else {
        return false;
    };
    let digest: [u8; 32] = Sha256::digest(text);
    match i64::try_from(id) {
        Ok(wanted) => wanted == number && digest.as_slice() == sum,
        Err(_) => false,
    }
}

// Whether the rows show the ids from 0 on, each with some text and its sum.
fn are_listed(rows: &[Row]) -> bool
    ensures { IsTrue result → (id : ℕ) (row : Values) → slice_get rows.now id ≡ Some row
        → IsListedRow id (text_in row) row }
{
    for id in 0..rows.len() {
        if !is_listed(&rows[id], id) {
            return false;
        }
    }
    true
}

// How many rows the table has. They are refused where their ids do not count from 0 or a sum is wrong.
pub(crate) fn count_rows<S: Alter>(conn: &mut Connection<S>) -> Result<usize, TableError>
    ensures same { HasCleanDisk (state S.Store conn.new) → (state S.Store conn.old).now.schema ≡ entry_schema
        → OnOk result (IsUnchanged (state S.Store conn.old) (state S.Store conn.new)) }
    ensures counted { HasCleanDisk (state S.Store conn.new) → (state S.Store conn.old).now.schema ≡ entry_schema
        → (state S.Store conn.old).in_transaction ≡ false
        → (IsTrue (state S.Store conn.old).is_open → (state S.Store conn.old).now ≡ (state S.Store conn.old).committed)
        → IfOk result (λ count. (texts : List (List ℕ)) × Rests (state S.Store conn.new) texts
        × (length texts ≡ count)) }
{
    let rows = ask(conn, LIST, &[])?;
    if are_listed(&rows) {
        Ok(rows.len())
    } else {
        Err(TableError::Foreign)
    }
}
