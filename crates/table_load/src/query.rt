ghost use Rattle.std.specs.Prelude.{◌≡◌, IsTrue, map, is_some};
ghost use Rattle.table_load.specs.Common.{HasCleanDisk, Survives, state, Reads};
ghost use Rattle.table_load.specs.Held.{found, place_by_name, places_by_name, is_whole, ShowsWhole};
ghost use Rattle.table_load.specs.Upgrade.{IsQuery, column_names};

use sqlite::{Alter, Connection, Error, Row};
use sqlite_schema::schema::{Schema, Table};
use sqlite_value::keys::Collation;

/// A query for a whole table.
#[derive(Drop)]
pub struct TableQuery<'a> {
    /// The SELECT of the columns, ordered by the first of them.
    pub text: &'a str,
    /// The table's name.
    pub name: &'a str,
    /// The names of the columns, those of the key first.
    pub columns: &'a [&'a str],
    /// The number of columns in the key.
    pub keys: usize,
}

/// Returns whether the table has the column, with the collation BINARY.
fn has_column(table: &Table, name: &str) -> bool
    ensures { result ≡ is_some (place_by_name table.now name.now) }
{
    match table.column_named(name.as_bytes()) {
        None => false,
        Some(at) => match table.columns.as_slice().get(at) {
            None => false,
            Some(column) => column.collation == Collation::Binary,
        },
    }
}

/// Returns whether the table has each of the columns, with the collation BINARY.
fn has_columns(table: &Table, names: &[&str]) -> bool
    ensures { result ≡ is_some (places_by_name table.now (map (λ n. n.now) names.now)) }
{
    for name in names {
        if !has_column(table, name) {
            return false;
        }
    }
    true
}

pub(crate) fn has_table(schema: &Schema, name: &str, columns: &[&str]) -> bool
    ensures { result ≡ is_whole schema.now name.now (map (λ n. n.now) columns.now) }
{
    match schema.table_named(name.as_bytes()) {
        None => false,
        Some(at) => match schema.tables.as_slice().get(at) {
            None => false,
            Some(table) => has_columns(table, columns),
        },
    }
}

/// Returns the rows of a table unchanged, in the order of their keys, or `None` if the table or a
/// column is missing. After an error an open transaction may have been rolled back.
pub fn table_rows<S: Alter>(
    conn: &mut Connection<S>,
    query: &TableQuery<'_>,
) -> Result<Option<Vec<Row>>, Error>
    requires selects { IsQuery query.now }
    ensures read { HasCleanDisk (state S.Store conn.new) → IsTrue (state S.Store conn.old).is_open
        → Reads (state S.Store conn.old) (state S.Store conn.new) result (ShowsWhole (found
        (state S.Store conn.old).now query.now.name.now (column_names query.now)) query.now.keys) }
    ensures survives { Survives (state S.Store conn.old) (state S.Store conn.new) (λ _. ⊥) }
{
    if !has_table(conn.schema(), query.name, query.columns) {
        return Ok(None);
    }
    match conn.query_all(query.text, &[]) {
        Ok(rows) => Ok(Some(rows)),
        Err(error) => Err(error),
    }
}
