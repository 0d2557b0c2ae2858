ghost use Rattle.std.specs.Prelude.{◌≡◌, true, IsTrue, map};
ghost use Rattle.station_schema.specs.Common.{Integer};
ghost use Rattle.station_schema.specs.Schema.{column_of, key_column, column_as, index_of};

use crate::shapes::IndexShape;
use sqlite_schema::schema::{Column, Index, Kind};
use sqlite_value::keys::{Collation, Order};
use sqlite_value::value::Value;

/// Returns whether the column has this name and type, in a STRICT table, and is NOT NULL.
fn is_typed(column: &Column, name: &str, kind: Kind) -> bool
    ensures on { IsTrue result → column.now ≡ column_of name.now kind }
    ensures back { column.now ≡ column_of name.now kind → result ≡ true }
{
    if column.name.as_slice() != name.as_bytes() {
        return false;
    }
    if column.kind != kind || column.collation != Collation::Binary {
        return false;
    }
    if !column.is_strict || !column.not_null {
        return false;
    }
    matches!(&column.default, Value::Null)
}

/// Returns whether the column is the INTEGER PRIMARY KEY of a STRICT table, with this name.
pub(crate) fn is_key(column: &Column, name: &str) -> bool
    ensures on { IsTrue result → column.now ≡ key_column name.now Integer }
    ensures back { column.now ≡ key_column name.now Integer → result ≡ true }
{
    if column.name.as_slice() != name.as_bytes() {
        return false;
    }
    if column.kind != Kind::Integer || column.collation != Collation::Binary {
        return false;
    }
    if !column.is_strict || column.not_null {
        return false;
    }
    matches!(&column.default, Value::Null)
}

/// Returns whether these are the columns, in this order, and each is NOT NULL.
pub(crate) fn are_columns(columns: &[Column], wanted: &[(&str, Kind)]) -> bool
    ensures on { IsTrue result → columns.now ≡ map column_as wanted.now }
    ensures back { columns.now ≡ map column_as wanted.now → result ≡ true }
{
    if columns.len() != wanted.len() {
        return false;
    }
    for i in 0..columns.len() {
        let (name, kind) = wanted[i];
        if !is_typed(&columns[i], name, kind) {
            return false;
        }
    }
    true
}

/// Returns whether the index has this shape.
fn is_index(index: &Index, shape: &IndexShape) -> bool
    ensures on { IsTrue result → index.now ≡ index_of shape.now }
    ensures back { index.now ≡ index_of shape.now → result ≡ true }
{
    index.name.as_slice() == shape.name.as_bytes()
        && index.tree == shape.tree
        && index.table == shape.table
        && index.columns.as_slice() == shape.places
        && index.order == Order::PLAIN
        && index.is_unique == shape.is_unique
}

/// Returns whether these are the indexes of these shapes, in this order.
pub(crate) fn are_indexes(indexes: &[Index], shapes: &[IndexShape]) -> bool
    ensures on { IsTrue result → indexes.now ≡ map index_of shapes.now }
    ensures back { indexes.now ≡ map index_of shapes.now → result ≡ true }
{
    if indexes.len() != shapes.len() {
        return false;
    }
    for i in 0..indexes.len() {
        if !is_index(&indexes[i], &shapes[i]) {
            return false;
        }
    }
    true
}
