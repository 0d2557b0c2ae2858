ghost use Rattle.std.specs.Prelude.{◌≡◌, ◌∷◌, ◌++◌, [], pos, int_lt, length, All, List, map, filter, IfOk, IfSome, OnErr, OnOk};
ghost use Rattle.row_codec.specs.Common.{waybills_on, Built, loads_on, build_meant, Reads};
ghost use Rattle.row_codec.specs.Stored.{AreBuilds, running, Sums, load_said, row_said, is_loaded};
ghost use Rattle.row_codec.specs.Known.{AreKnown, AreSumsOn};

use crate::columns::awb_by;
use crate::flights::{day_number, flight_text};
use crate::known::{KnownSums, LoadSums};
use crate::tally::{Tally, build_tally};
use shipment_machine::{FlightDate, Move};
use station_core::Load;
use station_rows::{BuildRow, BuildsOn, PiecesOn, StoreFault, TableStore};
use std::alloc::Global;

/// Returns whether a row has pieces.
fn is_loaded(row: &BuildRow) -> bool
    ensures { result ≡ is_loaded (row_said (build_meant row.now)) }
{
    0 < row.pieces
}

/// The load of a row.
fn load_in(row: &BuildRow) -> Result<Load, StoreFault>
    ensures { IfOk result (λ load. load_said load ≡ row_said (build_meant row.now)) }
{
    let Some(awb) = awb_by(row.awb) else {
        return Err(StoreFault);
    };
    let amount = build_tally(row).amount()?;
    Ok(Load { awb, amount })
}

/// Adds a load.
fn add(loads: &mut Vec<Load>, load: Load) -> Result<(), StoreFault>
    ensures { OnOk result (loads.new.items ≡ loads.old.items ++ load ∷ []) }
{
    match loads.push(load) {
        Ok(()) => Ok(()),
        Err(_) => Err(StoreFault),
    }
}

/// The loads of rows, where there are pieces in them.
fn loads_in(alloc: Global, rows: &[BuildRow]) -> Result<Vec<Load>, StoreFault>
    ensures { IfOk result (λ loads. map load_said loads.items ≡ filter is_loaded
        (map row_said (map build_meant rows.now))) }
{
    let mut loads = Vec::new(alloc);
    for row in rows {
        if is_loaded(row) {
            let load = load_in(row)?;
            add(&mut loads, load)?;
        }
    }
    Ok(loads)
}

/// Returns the sum that a load is.
fn sum_in(load: &Load) -> Tally
    ensures { result ≡ (load_said load.now).1 }
{
    Tally {
        pieces: i64::from(load.amount.pieces),
        tenths: i64::from(load.amount.tenths),
    }
}

/// Returns the sums of the loads of a flight, or `None` if memory ran out.
fn sums_of(alloc: Global, flight: &FlightDate, loads: &[Load]) -> Option<LoadSums>
    ensures { (sums : Sums)
        → All (λ load. (load_said load).1 ≡ sums load.awb (Built flight.now)) loads.now
        → IfSome result (λ kept. AreSumsOn kept sums) }
{
    let mut kept = LoadSums::new(alloc, flight);
    for load in loads {
        kept = kept.with(&load.awb, sum_in(load))?;
    }
    Some(kept)
}

/// Lists the waybills of which something is built on a flight, ascending, each with its load,
/// inside a transaction or outside; from then on their sums are known. A fault: the database call
/// failed, memory ran out, or a row is out of range. A fault outside changes nothing while the
/// store is open.
pub fn aboard<S: TableStore>(
    alloc: Global,
    store: &mut S,
    known: &mut KnownSums,
    flight: &FlightDate,
) -> Result<Vec<Load>, StoreFault>
    ensures reads { Reads (S.view store.old) (S.view store.new) result
        (λ tables loads. (book : List Move) → AreBuilds tables.builds book
        → (loads.items ≡ loads_on book flight.now)
        × (AreKnown known.old (running book) → AreKnown known.new (running book))) }
    ensures known_at_err { OnErr result (known.new ≡ known.old) }
{
    let text = flight_text(alloc, &flight.flight)?;
    let day = day_number(flight.day);
    let rows = store.read(BuildsOn {
        flight: text.as_str(),
        day,
    })?;
    let loads = loads_in(alloc, &rows)?;
    known.builds = sums_of(alloc, flight, &loads);
    Ok(loads)
}

/// Returns the number of rows that have pieces, by the pieces of each.
fn count_loaded(pieces: &[i64]) -> usize
    ensures { result ≡ length (filter (int_lt (pos 0)) pieces.now) }
{
    pieces.iter().filter(|count| 0 < **count).count()
}

/// Counts the waybills that are built on a flight, inside a transaction or outside. A departure
/// reads each load, by `aboard`; where their number alone is needed, this reads less of each row. A
/// fault: the database call failed, or memory ran out. A fault outside changes nothing while the
/// store is open.
pub fn waybills_on<S: TableStore>(
    alloc: Global,
    store: &mut S,
    flight: &FlightDate,
) -> Result<usize, StoreFault>
    ensures { Reads (S.view store.old) (S.view store.new) result
        (λ tables number. (book : List Move) → AreBuilds tables.builds book
        → number ≡ length (waybills_on book flight.now)) }
{
    let text = flight_text(alloc, &flight.flight)?;
    let day = day_number(flight.day);
    let pieces = store.read(PiecesOn {
        flight: text.as_str(),
        day,
    })?;
    Ok(count_loaded(&pieces))
}
