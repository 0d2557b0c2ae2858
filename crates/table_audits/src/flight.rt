ghost use Rattle.std.specs.Prelude.{◌≡◌, not, is_some, IfSome, Some};
ghost use Rattle.table_audits.specs.Common.{bytes_eq, flight_entry, is_flight_row, noted_by, Survives, state};
ghost use Rattle.table_audits.specs.declared.name.TableName.TheVariants as table;
ghost use Rattle.table_audits.specs.Moves.{is_lawful_flight};
ghost use Rattle.table_audits.specs.Verdict.{Audits};

use crate::rows::Known;
use imp_fields::Airport;
use row_codec::noted_of;
use sqlite::{Alter, Connection, Error};
use station_core::NotedFlight;
use std::alloc::Global;
use table_load::{FlightEntry, found_rows};

/// Returns the flight of a row that is in range.
fn noted(row: &FlightEntry) -> Option<NotedFlight>
    ensures exact { is_some result ≡ is_flight_row (flight_entry row.now) }
    ensures value { IfSome result (λ one. Some one ≡ noted_by (flight_entry row.now)) }
{
    noted_of(&row.flight, row.day, &row.unload, row.closed)
}

/// Returns whether an airport of unloading isn't this station's.
fn is_elsewhere(unload: &Airport, here: &Airport) -> bool
    ensures { result ≡ not (bytes_eq unload.now here.now) }
{
    let letters = unload.letters();
    let ours = here.letters();
    letters[..] != ours[..]
}

/// Returns whether the row is in range, and the flight unloaded elsewhere.
fn is_lawful(row: &FlightEntry, here: &Airport) -> bool
    ensures { result ≡ is_lawful_flight here.now (flight_entry row.now) }
{
    let Some(one) = noted(row) else {
        return false;
    };
    is_elsewhere(&one.outbound.unload, here)
}

/// Reads `flight`. Returns whether it exists and is lawful.
pub(crate) fn is_good<S: Alter>(
    alloc: Global,
    conn: &mut Connection<S>,
    known: &mut Known,
) -> Result<bool, Error>
    ensures read { Audits S.Store conn.old conn.new result table.Flight known.old known.new }
    ensures survives { Survives (state S.Store conn.old) (state S.Store conn.new) (λ _. ⊥) }
{
    let Some(rows) = found_rows::<S, FlightEntry>(alloc, conn)? else {
        return Ok(false);
    };
    let is_lawful = rows.iter().all(|row| is_lawful(row, &known.here));
    known.beside.flights = rows;
    Ok(is_lawful)
}
