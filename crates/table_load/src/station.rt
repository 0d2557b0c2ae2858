ghost use Rattle.std.specs.Prelude.{◌≡◌, IfOk, IsTrue};
ghost use Rattle.table_load.specs.Common.{int_eq, HasCleanDisk, Survives, state, Reads};
ghost use Rattle.table_load.specs.Held.{station_name, has_table, version_number, found_in_row, found_in_rows, station_of, found_meant};

use crate::{TableQuery, number, table_rows, words};
use sqlite::{Alter, Connection, Error, Row};
use sqlite_schema::schema::Schema;
use std::alloc::Global;

/// The layout of a file's tables.
#[derive(Clone, Copy)]
pub enum FileVersion {
    /// The waybills are in `waybill`, without their day.
    First,
    /// The waybills are in `waybill2`, with the day of their last declaration, and `waybill` is
    /// empty.
    Second,
}

fn is_wanted(version: i64, wanted: FileVersion) -> bool
    ensures { result ≡ int_eq version (version_number wanted) }
{
    match wanted {
        FileVersion::First => version == 1,
        FileVersion::Second => version == 2,
    }
}

/// The content of the table `station` in a database.
#[derive(Drop)]
pub enum StationFound {
    /// The table is missing or has no row.
    NoStation,
    /// A column is missing, there are several rows, or the values aren't a station's.
    Damaged,
    /// The version is this whole number, not the expected one.
    OtherVersion(i64),
    /// The airport, and the number of the last confirmed message.
    OneRow(String, i64),
}

/// Returns whether the table `station` exists.
fn has_station(schema: &Schema) -> bool
    ensures { result ≡ has_table schema.now station_name }
{
    match schema.table_named("station".as_bytes()) {
        None => false,
        Some(at) => schema.tables.as_slice().get(at).is_some(),
    }
}

/// Returns the content of a row. It fails only if memory runs out.
fn judged_row(alloc: Global, row: &Row, wanted: FileVersion) -> Result<StationFound, Error>
    ensures { IfOk result (λ s. found_meant s ≡ found_in_row wanted row.now) }
{
    if row.column_count() != 4 {
        return Ok(StationFound::Damaged);
    }
    let Some(version) = number(row, 2) else {
        return Ok(StationFound::Damaged);
    };
    if !is_wanted(version, wanted) {
        return Ok(StationFound::OtherVersion(version));
    }
    let Some(id) = number(row, 0) else {
        return Ok(StationFound::Damaged);
    };
    let Some(confirmed) = number(row, 3) else {
        return Ok(StationFound::Damaged);
    };
    let Some(airport) = words(alloc, row, 1)? else {
        return Ok(StationFound::Damaged);
    };
    if id == 1 {
        Ok(StationFound::OneRow(airport, confirmed))
    } else {
        Ok(StationFound::Damaged)
    }
}

/// Returns the content of all rows. It fails only if memory runs out.
fn judged_rows(alloc: Global, rows: &[Row], wanted: FileVersion) -> Result<StationFound, Error>
    ensures { IfOk result (λ s. found_meant s ≡ found_in_rows wanted rows.now) }
{
    if rows.len() > 1 {
        return Ok(StationFound::Damaged);
    }
    match rows.first() {
        None => Ok(StationFound::NoStation),
        Some(row) => judged_row(alloc, row, wanted),
    }
}

/// Returns the content of the table `station` in any database. It tests whether there is a row,
/// then whether it is the only one and has all columns, then its version, and then its values.
///
/// Fails if memory runs out or the database can't be read. Then an open transaction may have been
/// rolled back.
#[tactic(auto, using(crate::proofs::Texts::station_is))]
pub fn found_station<S: Alter>(
    alloc: Global,
    conn: &mut Connection<S>,
    wanted: FileVersion,
) -> Result<StationFound, Error>
    ensures read { HasCleanDisk (state S.Store conn.new) → IsTrue (state S.Store conn.old).is_open
        → Reads (state S.Store conn.old) (state S.Store conn.new) result
        (λ s. found_meant s ≡ station_of wanted (state S.Store conn.old).now) }
    ensures survives { Survives (state S.Store conn.old) (state S.Store conn.new) (λ _. ⊥) }
{
    if !has_station(conn.schema()) {
        return Ok(StationFound::NoStation);
    }
    let query = TableQuery {
        text: "SELECT id, airport, version, confirmed FROM station ORDER BY id",
        name: "station",
        columns: &["id", "airport", "version", "confirmed"],
        keys: 1,
    };
    let Some(rows) = table_rows(conn, &query)? else {
        return Ok(StationFound::Damaged);
    };
    judged_rows(alloc, &rows, wanted)
}
