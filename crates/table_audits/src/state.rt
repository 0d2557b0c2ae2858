ghost use Rattle.std.specs.Prelude.{◌≡◌, IsTrue};
ghost use Rattle.table_audits.specs.Common.{station_read, read_as, HasCleanDisk, Survives, state, Reads, one_row};
ghost use Rattle.table_audits.specs.Verdict.{Judges};

use crate::TableName;
use crate::judge::judged_tables;
use crate::rows::Unfit;
use crate::station::audited_row;
use imp_fields::Airport;
use sqlite::{Alter, Connection, Error};
use station_core::Sizes;
use std::alloc::Global;
use table_load::{FileVersion, StationFound, found_station};

/// The findings about a station besides its rows.
#[derive(Clone, Copy)]
pub struct FoundState {
    /// The airport of the station.
    pub here: Airport,
    /// The number of the last confirmed message.
    pub confirmed: u32,
    /// The numbers of moves, trail lines and messages.
    pub sizes: Sizes,
}

/// Audits a database whose table `station` has this one row, of this version.
fn found_from<S: Alter>(
    alloc: Global,
    conn: &mut Connection<S>,
    version: FileVersion,
    airport: &str,
    confirmed: i64,
) -> Result<Result<FoundState, Unfit>, Error>
    ensures read { HasCleanDisk (state S.Store conn.new) → IsTrue (state S.Store conn.old).is_open
        → station_read (read_as version (state S.Store conn.old).now) ≡ one_row airport.now
        confirmed
        → Reads (state S.Store conn.old) (state S.Store conn.new) result
        (Judges (read_as version (state S.Store conn.old).now)) }
    ensures survives { Survives (state S.Store conn.old) (state S.Store conn.new) (λ _. ⊥) }
{
    let Some(mut known) = audited_row(alloc, version, airport, confirmed) else {
        return Ok(Err(Unfit::Unlawful(TableName::Station)));
    };
    match judged_tables(alloc, conn, &mut known)? {
        Err(name) => Ok(Err(Unfit::Unlawful(name))),
        Ok(found) => Ok(Ok(found)),
    }
}

/// Audits any database as a version. Returns what was found, or the reason why it isn't a
/// station's. The table `station` is read first; the others follow in their order, each read by one
/// statement and tested with those before it, of which only what later tests need is kept. The
/// audit stops at the first bad table.
///
/// Fails if memory runs out, a row can't be numbered, or the database can't be read. Then an open
/// transaction may have been rolled back.
pub fn found_state<S: Alter>(
    alloc: Global,
    conn: &mut Connection<S>,
    version: FileVersion,
) -> Result<Result<FoundState, Unfit>, Error>
    ensures read { HasCleanDisk (state S.Store conn.new) → IsTrue (state S.Store conn.old).is_open
        → Reads (state S.Store conn.old) (state S.Store conn.new) result
        (Judges (read_as version (state S.Store conn.old).now)) }
    ensures survives { Survives (state S.Store conn.old) (state S.Store conn.new) (λ _. ⊥) }
{
    match found_station(alloc, conn, version)? {
        StationFound::NoStation => Ok(Err(Unfit::NoStation)),
        StationFound::Damaged => Ok(Err(Unfit::Unlawful(TableName::Station))),
        StationFound::OtherVersion(other) => Ok(Err(Unfit::OtherVersion(other))),
        StationFound::OneRow(airport, confirmed) => {
            found_from(alloc, conn, version, &airport, confirmed)
        }
    }
}
