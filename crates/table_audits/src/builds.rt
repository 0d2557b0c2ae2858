ghost use Rattle.std.specs.Prelude.{◌≡◌, ◌↔◌, IsTrue, Some, map};
ghost use Rattle.table_audits.specs.Common.{IsOrdered, build_meant, flight_entry, Survives, state};
ghost use Rattle.table_audits.specs.Moves.{build_at, build_entry, build_place_cmp};
ghost use Rattle.table_audits.specs.Verdict.{Audits};
ghost use Rattle.table_audits.specs.declared.name.TableName.TheVariants as table;

use crate::rows::Known;
use crate::sums::{BookSums, BuildPlace};
use row_codec::Tally;
use sqlite::{Alter, Connection, Error};
use station_rows::BuildRow;
use std::alloc::Global;
use table_load::{FlightEntry, found_rows};

/// Returns whether a row has this tally of a waybill on a flight.
fn says(row: &BuildRow, on: &FlightEntry, awb: i64, tally: &Tally) -> bool
    ensures { IsTrue result ↔ (build_meant row.now ≡ build_at (flight_entry on.now) awb tally.now) }
{
    if row.flight != on.flight || row.day != on.day || row.awb != awb {
        return false;
    }
    row.pieces == tally.pieces && row.tenths == tally.tenths
}

/// Returns whether a row has this tally, by the index of its flight.
fn is_row(row: &BuildRow, place: &BuildPlace, tally: &Tally, flights: &[FlightEntry]) -> bool
    ensures { IsTrue result ↔
        (Some (build_meant row.now) ≡ build_entry (map flight_entry flights.now)
        (place.now, tally.now)) }
{
    match flights.get(place.flight) {
        None => false,
        Some(on) => says(row, on, place.awb, tally),
    }
}

/// Returns whether the rows of `build` are the sums, both in the order of their keys.
fn are_same(sums: &BookSums, flights: &[FlightEntry], rows: &[BuildRow]) -> bool
    ensures same { IsTrue result ↔
        (map (λ row. Some (build_meant row)) rows.now ≡ map
        (build_entry (map flight_entry flights.now)) sums.now.builds.entries) }
    ensures ordered { IsOrdered build_place_cmp sums.now.builds }
{
    let mut ahead = sums.builds.iter();
    for row in rows {
        let Some((place, tally)) = ahead.next() else {
            return false;
        };
        if !is_row(row, place, tally, flights) {
            return false;
        }
    }
    ahead.next().is_none()
}

/// Reads `build`. Returns whether it exists and is lawful.
pub(crate) fn is_good<S: Alter>(
    alloc: Global,
    conn: &mut Connection<S>,
    known: &Known,
) -> Result<bool, Error>
    ensures read { Audits S.Store conn.old conn.new result table.Build known.now known.now }
    ensures survives { Survives (state S.Store conn.old) (state S.Store conn.new) (λ _. ⊥) }
{
    let Some(rows) = found_rows::<S, BuildRow>(alloc, conn)? else {
        return Ok(false);
    };
    Ok(are_same(&known.book.sums, &known.beside.flights, &rows))
}
