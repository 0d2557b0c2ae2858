ghost use Rattle.std.specs.Prelude.{◌≡◌, ◌∷◌, [], ◌++◌, List, IfOk, OnOk};
ghost use Rattle.row_codec.specs.Common.{Survives, IsShowing, inside, Tables};
ghost use Rattle.row_codec.specs.Stored.{AreCounts, AreBuilds, running, Sums, come, gone, posting, Keeps, Posted, WereThere};
ghost use Rattle.row_codec.specs.Known.{AreKnown};

use crate::building::post_build;
use crate::counting::post_count;
use crate::flights::{awb_key, day_number, flight_text};
use crate::known::KnownSums;
use crate::place_code;
use crate::tally::Tally;
use awb_number::Awb;
use shipment_machine::{Move, Place};
use station_rows::{StoreFault, TableStore};
use std::alloc::Global;

/// Adds an amount to what a waybill has at a place, and returns the pieces that it had there
/// before. What is known of the sums is known of those after it.
fn post<S: TableStore>(
    alloc: Global,
    store: &mut S,
    known: &mut KnownSums,
    awb: &Awb,
    place: &Place,
    by: Tally,
) -> Result<i64, StoreFault>
    ensures done { (before now : Tables) (sums : Sums) → Keeps (S.view store.old) before now sums
        → AreKnown known.old sums → OnOk result (Keeps (S.view store.new) before now
        (posting awb.now place.now by sums)) }
    ensures before { (before now : Tables) (sums : Sums) → Keeps (S.view store.old) before now sums
        → AreKnown known.old sums → (S.view store.new).IsSound
        → IfOk result (λ pieces. pieces ≡ (sums awb.now place.now).pieces) }
    ensures known { (sums : Sums) → AreKnown known.old sums
        → OnOk result (AreKnown known.new (posting awb.now place.now by sums)) }
    ensures survives { Survives (S.view store.old) (S.view store.new) }
{
    let number = awb_key(awb);
    let sum = known.at(awb, place);
    if let Place::Built(flight) = place {
        let text = flight_text(alloc, &flight.flight)?;
        let day = day_number(flight.day);
        let aboard = post_build(alloc, store, text.as_str(), day, number, by, sum)?;
        known.post(awb, place, by);
        Ok(aboard)
    } else {
        let code = place_code(place);
        let there = post_count(store, number, code, by, sum)?;
        known.post(awb, place, by);
        Ok(there)
    }
}

/// Returns the amount that a move brings to its destination.
fn come(movement: &Move) -> Tally
    ensures { result ≡ come movement.now }
{
    Tally {
        pieces: i64::from(movement.pieces.number()),
        tenths: i64::from(movement.tenths.number()),
    }
}

/// Returns the amount that a move takes from its origin.
fn gone(movement: &Move) -> Tally
    ensures { result ≡ gone movement.now }
{
    Tally {
        pieces: -i64::from(movement.pieces.number()),
        tenths: -i64::from(movement.tenths.number()),
    }
}

/// Takes what a move moves from the place that it leaves and brings it to the place that it comes
/// to, in a transaction, and returns the pieces that the waybill had there before. A place of a
/// waybill where nothing is left has no row. What is known of the sums isn't read again, and is
/// known of those after the move. A fault: no transaction is open, a database call failed, memory
/// ran out, or a sum is out of range; then what was known counts no more.
pub fn post_move<S: TableStore>(
    alloc: Global,
    store: &mut S,
    known: &mut KnownSums,
    movement: &Move,
) -> Result<i64, StoreFault>
    ensures done { (before now : Tables) → IsShowing (S.view store.old) (inside before now)
        → (book : List Move) → AreCounts now.counts book → AreBuilds now.builds book
        → AreKnown known.old (running book)
        → OnOk result (Posted (S.view store.new) before now (book ++ movement.now ∷ [])) }
    ensures before { (before now : Tables) → IsShowing (S.view store.old) (inside before now)
        → (book : List Move) → AreCounts now.counts book → AreBuilds now.builds book
        → AreKnown known.old (running book)
        → (S.view store.new).IsSound → IfOk result (WereThere book movement.now) }
    ensures known { (book : List Move) → AreKnown known.old (running book)
        → OnOk result (AreKnown known.new (running (book ++ movement.now ∷ []))) }
    ensures survives { Survives (S.view store.old) (S.view store.new) }
{
    let gone = gone(movement);
    post(alloc, store, known, &movement.awb, &movement.from, gone)?;
    let come = come(movement);
    let pieces = post(alloc, store, known, &movement.awb, &movement.to, come)?;
    Ok(pieces)
}
