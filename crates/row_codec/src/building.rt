ghost use Rattle.std.specs.Prelude.{◌≡◌, List, Option, option_map, IfOk, IfSome, OnErr, OnOk};
ghost use Rattle.row_codec.specs.Common.{get, built, Built, Seen, Survives, IsShowing, inside, Tables, build_meant, Reads, ShowsChange, ShowsStill};
ghost use Rattle.row_codec.specs.Stored.{AreBuilds, build_row, running, running_on, pieces_found, storing_build, posting_build};
ghost use Rattle.row_codec.specs.Known.{AreKnown, IsRowOf};

use crate::flights::{awb_key, day_number, flight_text};
use crate::known::{KnownSums, LoadSums};
use crate::tally::{Tally, build_tally, pieces_found};
use awb_number::Awb;
use shipment_machine::{Amount, FlightDate, Move};
use station_rows::{
    BuildOn, BuildRow, DeleteBuild, InsertBuild, StoreFault, TableStore, UpdateBuild,
};
use std::alloc::Global;

/// A row of `build`.
fn row_of(
    alloc: Global,
    flight: &str,
    day: i64,
    awb: i64,
    sum: Tally,
) -> Result<BuildRow, StoreFault>
    ensures { IfOk result (λ row. build_meant
        row ≡ ((flight.now, (day, awb)), build_row sum)) }
{
    match String::from_str(alloc, flight) {
        Ok(flight) => Ok(BuildRow {
            flight,
            day,
            awb,
            pieces: sum.pieces,
            tenths: sum.tenths,
        }),
        Err(_) => Err(StoreFault),
    }
}

/// Reads the amount of a waybill on a flight, if it has a row.
fn at_flight<S: TableStore>(
    store: &mut S,
    flight: &str,
    day: i64,
    awb: i64,
) -> Result<Option<Tally>, StoreFault>
    ensures { Reads (S.view store.old) (S.view store.new) result
        (λ tables found. found ≡ option_map running_on
        (get tables.builds (flight.now, (day, awb)))) }
{
    match store.read(BuildOn { flight, day, awb })? {
        Some(row) => Ok(Some(build_tally(&row))),
        None => Ok(None),
    }
}

/// Writes what a flight carries of a waybill, where it is known whether there is a row.
fn put_build<S: TableStore>(
    alloc: Global,
    store: &mut S,
    is_there: bool,
    flight: &str,
    day: i64,
    awb: i64,
    sum: Tally,
) -> Result<(), StoreFault>
    ensures done { ShowsChange (S.view store.old) (S.view store.new) result
        (storing_build is_there ((flight.now, (day, awb)), build_row sum)) }
    ensures survives { Survives (S.view store.old) (S.view store.new) }
{
    if sum.is_nothing() {
        return store.write(DeleteBuild { flight, day, awb });
    }
    let row = row_of(alloc, flight, day, awb, sum)?;
    if is_there {
        store.write(UpdateBuild { row: &row })
    } else {
        store.write(InsertBuild { row: &row })
    }
}

/// Returns the amount of a waybill on a flight, if it has a row: the known one, or that of its row.
fn carried<S: TableStore>(
    store: &mut S,
    flight: &str,
    day: i64,
    awb: i64,
    known: Option<Tally>,
) -> Result<Option<Tally>, StoreFault>
    ensures read { (x : Seen) → IsShowing (S.view store.old) x
        → IfSome known (IsRowOf running_on (get x.now.builds (flight.now, (day, awb))))
        → (S.view store.new).IsSound → IfOk result (λ found. found
        ≡ option_map running_on (get x.now.builds (flight.now, (day, awb)))) }
    ensures same { ShowsStill (S.view store.old) (S.view store.new) result }
    ensures survives { Survives (S.view store.old) (S.view store.new) }
{
    if let Some(sum) = known {
        return Ok(sum.row());
    }
    at_flight(store, flight, day, awb)
}

/// Adds an amount to what a flight carries of a waybill, and returns the pieces that it carried
/// before. Where the sum is known it isn't read.
pub(crate) fn post_build<S: TableStore>(
    alloc: Global,
    store: &mut S,
    flight: &str,
    day: i64,
    awb: i64,
    by: Tally,
    known: Option<Tally>,
) -> Result<i64, StoreFault>
    ensures done { (before now : Tables) → IsShowing (S.view store.old) (inside before now)
        → IfSome known (IsRowOf running_on (get now.builds (flight.now, (day, awb))))
        → OnOk result (IsShowing (S.view store.new)
        (inside before (posting_build (flight.now, (day, awb)) by now))) }
    ensures before { (x : Seen) → IsShowing (S.view store.old) x
        → IfSome known (IsRowOf running_on (get x.now.builds (flight.now, (day, awb))))
        → (S.view store.new).IsSound → IfOk result (λ pieces. pieces
        ≡ pieces_found (option_map running_on (get x.now.builds (flight.now, (day, awb))))) }
    ensures survives { Survives (S.view store.old) (S.view store.new) }
{
    let found = carried(store, flight, day, awb, known)?;
    let sum = by.onto(found)?;
    put_build(alloc, store, found.is_some(), flight, day, awb, sum)?;
    Ok(pieces_found(found))
}

/// Reads the sum of a waybill on a flight.
fn sum_on<S: TableStore>(
    alloc: Global,
    store: &mut S,
    awb: &Awb,
    flight: &FlightDate,
) -> Result<Tally, StoreFault>
    ensures { Reads (S.view store.old) (S.view store.new) result
        (λ tables sum. (book : List Move) → AreBuilds tables.builds book
        → sum ≡ running book awb.now (Built flight.now)) }
{
    let text = flight_text(alloc, &flight.flight)?;
    let day = day_number(flight.day);
    let number = awb_key(awb);
    match at_flight(store, text.as_str(), day, number)? {
        Some(sum) => Ok(sum),
        None => Ok(Tally {
            pieces: 0,
            tenths: 0,
        }),
    }
}

/// Reads the amount of a waybill on a flight, inside a transaction or outside; from then on it is
/// known. A fault: the database call failed, memory ran out, or an amount is out of range. A fault
/// outside changes nothing while the store is open.
pub fn load<S: TableStore>(
    alloc: Global,
    store: &mut S,
    known: &mut KnownSums,
    awb: &Awb,
    flight: &FlightDate,
) -> Result<Amount, StoreFault>
    ensures reads { Reads (S.view store.old) (S.view store.new) result
        (λ tables load. (book : List Move) → AreBuilds tables.builds book
        → (load ≡ built book awb.now flight.now)
        × (AreKnown known.old (running book) → AreKnown known.new (running book))) }
    ensures known_at_err { OnErr result (known.new ≡ known.old) }
{
    let sum = sum_on(alloc, store, awb, flight)?;
    let load = sum.amount()?;
    known.builds = LoadSums::new(alloc, flight).with(awb, sum);
    Ok(load)
}
