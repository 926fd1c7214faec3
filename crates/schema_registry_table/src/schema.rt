//! Whether a database is the table of a registry.
ghost use Rattle.std.specs.Prelude.{◌≡◌, [], false, IsTrue, OnOk};
ghost use Rattle.sqlite.specs.Held.{state};
ghost use Rattle.schema_registry_table.specs.Statements.{entry_column, entry_table, entry_index, entry_schema};
ghost use Rattle.schema_registry_table.specs.Statements.{no_schema};

use crate::error::TableError;
use sqlite::{Alter, Connection};
use sqlite_schema::schema::{Column, Index, Kind, Schema, Table};
use sqlite_value::keys::Collation;
use sqlite_value::value::Value;

const CREATE: &str =
    "CREATE TABLE entry (id INTEGER PRIMARY KEY, sum BLOB NOT NULL UNIQUE, text TEXT NOT NULL) STRICT";

fn is_named(name: &[u8], wanted: &str) -> bool
    ensures { IsTrue result → name.now ≡ wanted.now }
{
    name == wanted.as_bytes()
}

// Whether the column has this name and this kind, and whether it may be NULL.
fn is_column(column: &Column, name: &str, kind: Kind, not_null: bool) -> bool
    ensures { IsTrue result → column.now ≡ entry_column name.now kind not_null }
{
    let Value::Null = column.default else {
        return false;
    };
    is_named(column.name.as_slice(), name)
        && column.kind == kind
        && column.is_strict
        && column.not_null == not_null
        && column.collation == Collation::Binary
}

// Whether the table has the three columns of an entry.
fn has_columns(columns: &[Column]) -> bool
    ensures { IsTrue result → columns.now ≡ entry_table.columns }
{
    let [id, sum, text] = columns else {
        return false;
    };
    is_column(id, "id", Kind::Integer, false)
        && is_column(sum, "sum", Kind::Blob, true)
        && is_column(text, "text", Kind::Text, true)
}

// Whether these are the keys of the table: the id, and each sum once.
fn has_keys(table: &Table) -> bool
    ensures { IsTrue result → (table.now.key ≡ entry_table.key) × (table.now.primary ≡ entry_table.primary)
        × (table.now.uniques ≡ entry_table.uniques) × (table.now.orders ≡ entry_table.orders) }
{
    let ([0], [unique], [order]) = (
        table.primary.as_slice(),
        table.uniques.as_slice(),
        table.orders.as_slice(),
    ) else {
        return false;
    };
    let [2] = unique.as_slice() else {
        return false;
    };
    order.digits == 0 && table.key == Some(0)
}

// Whether the table has no further rule, and no value that it computes.
fn is_bare(table: &Table) -> bool
    ensures { IsTrue result → (table.now.checks ≡ []) × (table.now.references ≡ []) × (table.now.computed ≡ [])
        × (table.now.stamps ≡ entry_table.stamps) × (table.now.is_counted ≡ false) }
{
    table.checks.roots.is_empty()
        && table.references.is_empty()
        && table.computed.is_empty()
        && table.stamps.places.is_empty()
        && table.stamps.terms.roots.is_empty()
        && table.stamps.formats.is_empty()
        && !table.is_counted
}

fn is_entry_table(table: &Table) -> bool
    ensures { IsTrue result → table.now ≡ entry_table }
{
    is_named(table.name.as_slice(), "entry")
        && table.tree == 0
        && has_columns(table.columns.as_slice())
        && has_keys(table)
        && is_bare(table)
}

fn is_of_sums(places: &[usize]) -> bool
    ensures { IsTrue result → places.now ≡ entry_index.columns }
{
    matches!(places, [2])
}

fn is_entry_index(index: &Index) -> bool
    ensures { IsTrue result → index.now ≡ entry_index }
{
    is_named(index.name.as_slice(), "sqlite_autoindex_entry_1")
        && is_of_sums(index.columns.as_slice())
        && index.tree == 1
        && index.table == 0
        && index.order.digits == 0
        && index.is_unique
}

// Whether this is the schema of a file that has the table of a registry and nothing else.
fn is_entry_schema(schema: &Schema) -> bool
    ensures { IsTrue result → schema.now ≡ entry_schema }
{
    let ([table], [index]) = (schema.tables.as_slice(), schema.indexes.as_slice()) else {
        return false;
    };
    is_entry_table(table) && is_entry_index(index) && schema.views.is_empty()
}

// Whether the database has nothing.
fn is_empty(schema: &Schema) -> bool
    ensures { IsTrue result → schema.now ≡ no_schema }
{
    schema.tables.is_empty() && schema.indexes.is_empty() && schema.views.is_empty()
}

// Makes the table where the database has nothing, and refuses a database that has anything else.
pub(crate) fn prepare<S: Alter>(conn: &mut Connection<S>) -> Result<(), TableError>
    ensures schema { OnOk result ((state S.Store conn.new).now.schema ≡ entry_schema) }
    ensures autocommit { OnOk result ((state S.Store conn.new).in_transaction ≡ false) }
    ensures settled { OnOk result (IsTrue (state S.Store conn.new).is_open
        → (state S.Store conn.new).now ≡ (state S.Store conn.new).committed) }
    ensures kept { (state S.Store conn.old).now.schema ≡ entry_schema → conn.new ≡ conn.old }
{
    if is_empty(conn.schema()) {
        conn.execute(CREATE, &[])?;
    }
    if conn.is_autocommit() && is_entry_schema(conn.schema()) {
        Ok(())
    } else {
        Err(TableError::Foreign)
    }
}
