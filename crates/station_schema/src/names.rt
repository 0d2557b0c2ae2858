ghost use Rattle.std.specs.Prelude.{◌≡◌, IsTrue, true};
ghost use Rattle.station_schema.specs.Schema.{is_taken, takes_name, station_schema};
ghost use Rattle.station_schema.specs.Common.{state};
ghost use Rattle.station_schema.specs.Connection.{IsOwn};

use crate::columns::are_indexes;
use crate::shapes::{INDEXES, TABLES};
use crate::tables::are_tables;
use sqlite::{Alter, Connection};
use sqlite_schema::schema::Schema;

fn is_taken(schema: &Schema, name: &str) -> bool
    ensures { result ≡ is_taken schema.now name.now }
{
    let name = name.as_bytes();
    schema.table_named(name).is_some()
        || schema.index_named(name).is_some()
        || schema.view_named(name).is_some()
}

/// Returns whether a table, an index or a view has one of a new station's names, in any case of
/// ASCII letters.
pub fn takes_name(schema: &Schema) -> bool
    ensures { result ≡ takes_name schema.now }
{
    is_taken(schema, "station")
        || is_taken(schema, "waybill")
        || is_taken(schema, "stock")
        || is_taken(schema, "flight")
        || is_taken(schema, "moves")
        || is_taken(schema, "moves_awb")
        || is_taken(schema, "expected")
        || is_taken(schema, "part")
        || is_taken(schema, "trail")
        || is_taken(schema, "outbox")
        || is_taken(schema, "kept_key")
        || is_taken(schema, "kept_text")
        || is_taken(schema, "counts")
        || is_taken(schema, "build")
        || is_taken(schema, "waybill2")
}

/// An open connection with the schema of a station shows trees that allow no other schema.
pub fn shows_own<S: Alter>(conn: &Connection<S>)
    ensures { IsTrue (state S.Store conn.now).is_open
        → (state S.Store conn.now).now.schema ≡ station_schema
        → IsOwn (state S.Store conn.now).now.trees }
{
    let _ = conn.schema();
}

/// Returns whether the schema is that of a new station: its fourteen tables and their indexes, with
/// the same columns, keys and numbers, and nothing else.
pub fn is_declared(schema: &Schema) -> bool
    ensures on { IsTrue result → schema.now ≡ station_schema }
    ensures back { schema.now ≡ station_schema → result ≡ true }
{
    if !are_tables(schema.tables.as_slice(), &TABLES) {
        return false;
    }
    if !are_indexes(schema.indexes.as_slice(), &INDEXES) {
        return false;
    }
    schema.views.len() == 0
}
