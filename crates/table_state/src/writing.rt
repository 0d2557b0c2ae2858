//! Rows that are written over the one with their key, or anew, in a transaction.
//! Flights and expectations, by rows.
//! A move is written with what it changes of the running counts.

ghost use Rattle.table_state.specs.Common.{Survives, waybill_meant, flight_meant, with_flight, expected_meant, with_expected, ShowsChange, listed_waybill_meant, noted_flight_meant, noted_by, expectation_by, IsShowing, inside, Tables, AreCounts, AreBuilds, running, AreKnown, WereThere};
ghost use Rattle.table_state.specs.Shown.{putting_waybill, Recorded};
ghost use Rattle.std.specs.Prelude.{◌≡◌, map, Some, IfOk, List, ◌++◌, ◌∷◌, [], OnOk};
ghost use Rattle.shipment_machine.specs.declared.moves.Move as cargo;

use row_codec::{KnownSums, expectation_by, move_row, noted_by, post_move};
use shipment_machine::Move;
use station_core::{Expectation, NotedFlight};
use station_rows::{
    ExpectedOn, ExpectedRow, FlightOn, FlightRow, InsertExpected, InsertFlight, InsertMove,
    InsertWaybill, ListedWaybillRow, NotedFlightRow, StoreFault, TableStore, UpdateExpected,
    UpdateFlight, UpdateWaybill, WaybillOf, WaybillRow,
};
use std::alloc::Global;

/// Writes what is declared of a waybill. A row that is known to be missing isn't looked for.
pub(crate) fn put_waybill<S: TableStore>(
    store: &mut S,
    is_missing: bool,
    row: &WaybillRow,
) -> Result<(), StoreFault>
    ensures done { ShowsChange (S.view store.old) (S.view store.new) result
        (putting_waybill is_missing (waybill_meant row.now)) }
    ensures survives { Survives (S.view store.old) (S.view store.new) }
{
    if is_missing {
        return store.write(InsertWaybill { row });
    }
    if store.read(WaybillOf { awb: row.awb })?.is_some() {
        store.write(UpdateWaybill { row })
    } else {
        store.write(InsertWaybill { row })
    }
}

/// Writes what is noted of a flight of a day. A row that is known to be missing isn't looked for.
pub(crate) fn put_flight<S: TableStore>(
    store: &mut S,
    is_missing: bool,
    flight: &str,
    day: i64,
    row: &FlightRow,
) -> Result<(), StoreFault>
    ensures done { ShowsChange (S.view store.old) (S.view store.new) result
        (with_flight (flight.now, day) (flight_meant row.now)) }
    ensures survives { Survives (S.view store.old) (S.view store.new) }
{
    if is_missing {
        return store.write(InsertFlight { flight, day, row });
    }
    if store.read(FlightOn { flight, day })?.is_some() {
        store.write(UpdateFlight { flight, day, row })
    } else {
        store.write(InsertFlight { flight, day, row })
    }
}

/// Writes what a flight is to bring of a waybill. A row that is known to be missing isn't looked
/// for.
pub(crate) fn put_expected<S: TableStore>(
    store: &mut S,
    is_missing: bool,
    flight: &str,
    day: i64,
    awb: i64,
    row: &ExpectedRow,
) -> Result<(), StoreFault>
    ensures done { ShowsChange (S.view store.old) (S.view store.new) result
        (with_expected (flight.now, (day, awb)) (expected_meant row.now)) }
    ensures survives { Survives (S.view store.old) (S.view store.new) }
{
    if is_missing {
        return store.write(InsertExpected {
            flight,
            day,
            awb,
            row,
        });
    }
    if store.read(ExpectedOn { flight, day, awb })?.is_some() {
        store.write(UpdateExpected {
            flight,
            day,
            awb,
            row,
        })
    } else {
        store.write(InsertExpected {
            flight,
            day,
            awb,
            row,
        })
    }
}

/// The flights that rows are of, and what they note of them.
pub(crate) fn flights_noted(
    alloc: Global,
    rows: &[NotedFlightRow],
) -> Result<Vec<NotedFlight>, StoreFault>
    ensures { IfOk result (λ all. map Some all.items
        ≡ map (λ row. noted_by (noted_flight_meant row)) rows.now) }
{
    let mut all = Vec::new(alloc);
    for row in rows {
        let noted = noted_by(row).ok_or(StoreFault)?;
        all.push(noted)?;
    }
    Ok(all)
}

/// The flights and waybills that rows are of, and what they say is expected.
pub(crate) fn waybills_expected(
    alloc: Global,
    rows: &[ListedWaybillRow],
) -> Result<Vec<Expectation>, StoreFault>
    ensures { IfOk result (λ all. map Some all.items
        ≡ map (λ row. expectation_by (listed_waybill_meant row)) rows.now) }
{
    let mut all = Vec::new(alloc);
    for row in rows {
        let expectation = expectation_by(row).ok_or(StoreFault)?;
        all.push(expectation)?;
    }
    Ok(all)
}

/// Writes a move under its number, and what it changes of the running counts, in a transaction, and
/// returns the pieces that its waybill had before where the move comes to. What is known of sums is
/// known of those after it.
pub(crate) fn record_move<S: TableStore>(
    alloc: Global,
    store: &mut S,
    known: &mut KnownSums,
    number: u32,
    movement: &Move,
) -> Result<i64, StoreFault>
    ensures done { (before now : Tables) → IsShowing (S.view store.old) (inside before now)
        → (book : List cargo.Move) → AreCounts now.counts book → AreBuilds now.builds book
        → AreKnown known.old (running book)
        → OnOk result (Recorded (S.view store.new) before now number movement.now
        (book ++ movement.now ∷ [])) }
    ensures before { (before now : Tables) → IsShowing (S.view store.old) (inside before now)
        → (book : List cargo.Move) → AreCounts now.counts book → AreBuilds now.builds book
        → AreKnown known.old (running book)
        → (S.view store.new).IsSound → IfOk result (WereThere book movement.now) }
    ensures known { (book : List cargo.Move) → AreKnown known.old (running book)
        → OnOk result (AreKnown known.new (running (book ++ movement.now ∷ []))) }
    ensures survives { Survives (S.view store.old) (S.view store.new) }
{
    let row = move_row(alloc, number, movement)?;
    store.write(InsertMove { row: &row })?;
    post_move(alloc, store, known, movement)
}
