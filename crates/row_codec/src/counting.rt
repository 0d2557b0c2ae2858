ghost use Rattle.std.specs.Prelude.{◌≡◌, ℕ, ℤ, pos, false, List, Option, map, filter, option_map, option_copied, IfOk, IfSome, OnErr, OnOk};
ghost use Rattle.row_codec.specs.Common.{FinMap, entries, get, find, int_eq, balances_of, drawn, held, same_place, Seen, Survives, IsShowing, inside, Count, Tables, count_cmp, count_meant, counts_for, Reads, ShowsChange, ShowsStill};
ghost use Rattle.row_codec.specs.Stored.{AreCounts, count_row, running, running_in, is_built, pieces_found, storing_count, posting_count};
ghost use Rattle.row_codec.specs.Known.{AreKnown, AreSumsOf, IsRowOf};

use crate::flights::awb_key;
use crate::known::{CountSums, KnownSums, PlaceSums};
use crate::place_code;
use crate::tally::{Tally, count_tally, pieces_found};
use awb_number::Awb;
use shipment_machine::{Amount, Balances, Move, Place};
use station_rows::{
    CountRow, CountsOf, DeleteCount, InsertCount, StoreFault, TableStore, UpdateCount,
};

/// The first row of a place.
fn first_at(rows: &[CountRow], place: i64) -> Option<&CountRow>
    ensures { option_copied result ≡ find (λ row. int_eq row.place place) rows.now }
{
    rows.iter().find(|row| row.place == place)
}

/// Returns the amount in the row of a place, among the rows of a waybill.
fn at_place(rows: &[CountRow], place: i64) -> Option<Tally>
    ensures { (counts : FinMap count_cmp Count) (awb : ℤ)
        → map count_meant rows.now ≡ filter (counts_for awb) (entries counts)
        → result ≡ option_map running_in (get counts (awb, place)) }
{
    match first_at(rows, place) {
        Some(row) => Some(count_tally(row)),
        None => None,
    }
}

/// A row of `counts`.
fn row_of(awb: i64, place: i64, sum: Tally) -> CountRow
    ensures { count_meant result ≡ ((awb, place), count_row sum) }
{
    CountRow {
        awb,
        place,
        pieces: sum.pieces,
        tenths: sum.tenths,
    }
}

/// Writes what a waybill has at a place, where it is known whether there is a row.
fn put_count<S: TableStore>(
    store: &mut S,
    is_there: bool,
    awb: i64,
    place: i64,
    sum: Tally,
) -> Result<(), StoreFault>
    ensures done { ShowsChange (S.view store.old) (S.view store.new) result
        (storing_count is_there ((awb, place), count_row sum)) }
    ensures survives { Survives (S.view store.old) (S.view store.new) }
{
    if sum.is_nothing() {
        return store.write(DeleteCount { awb, place });
    }
    let row = row_of(awb, place, sum);
    if is_there {
        store.write(UpdateCount { row: &row })
    } else {
        store.write(InsertCount { row: &row })
    }
}

/// Returns the amount of a waybill at a place, if it has a row: the known one, or by its rows.
fn counted<S: TableStore>(
    store: &mut S,
    awb: i64,
    place: i64,
    known: Option<Tally>,
) -> Result<Option<Tally>, StoreFault>
    ensures read { (x : Seen) → IsShowing (S.view store.old) x
        → IfSome known (IsRowOf running_in (get x.now.counts (awb, place)))
        → (S.view store.new).IsSound → IfOk result (λ found. found
        ≡ option_map running_in (get x.now.counts (awb, place))) }
    ensures same { ShowsStill (S.view store.old) (S.view store.new) result }
    ensures survives { Survives (S.view store.old) (S.view store.new) }
{
    if let Some(sum) = known {
        return Ok(sum.row());
    }
    let rows = store.read(CountsOf { awb })?;
    Ok(at_place(&rows, place))
}

/// Adds an amount to what a waybill has at a place, and returns the pieces that it had there
/// before. Where the sum is known it isn't read.
pub(crate) fn post_count<S: TableStore>(
    store: &mut S,
    awb: i64,
    place: i64,
    by: Tally,
    known: Option<Tally>,
) -> Result<i64, StoreFault>
    ensures done { (before now : Tables) → IsShowing (S.view store.old) (inside before now)
        → IfSome known (IsRowOf running_in (get now.counts (awb, place)))
        → OnOk result (IsShowing (S.view store.new)
        (inside before (posting_count (awb, place) by now))) }
    ensures before { (x : Seen) → IsShowing (S.view store.old) x
        → IfSome known (IsRowOf running_in (get x.now.counts (awb, place)))
        → (S.view store.new).IsSound → IfOk result (λ pieces. pieces
        ≡ pieces_found (option_map running_in (get x.now.counts (awb, place)))) }
    ensures survives { Survives (S.view store.old) (S.view store.new) }
{
    let found = counted(store, awb, place, known)?;
    let sum = by.onto(found)?;
    put_count(store, found.is_some(), awb, place, sum)?;
    Ok(pieces_found(found))
}

/// Returns the amount at a place of the station, by the rows of a waybill.
fn held(rows: &[CountRow], place: &Place) -> Result<Amount, StoreFault>
    ensures { (counts : FinMap count_cmp Count) (book : List Move) (w : ℕ)
        → map count_meant rows.now ≡ filter (counts_for (pos w)) (entries counts)
        → AreCounts counts book
        → is_built place.now ≡ false
        → IfOk result (λ amount. amount ≡ held book w (same_place place.now)) }
{
    let code = place_code(place);
    match at_place(rows, code) {
        Some(tally) => Ok(tally.amount()?),
        None => Ok(Amount {
            pieces: 0,
            tenths: 0,
        }),
    }
}

/// Returns the amount that came from a place outside, by the rows of a waybill.
fn drawn(rows: &[CountRow], place: &Place) -> Result<Amount, StoreFault>
    ensures { (counts : FinMap count_cmp Count) (book : List Move) (w : ℕ)
        → map count_meant rows.now ≡ filter (counts_for (pos w)) (entries counts)
        → AreCounts counts book
        → is_built place.now ≡ false
        → IfOk result (λ amount. amount ≡ drawn book w (same_place place.now)) }
{
    let code = place_code(place);
    match at_place(rows, code) {
        Some(tally) => Ok(tally.shortfall()?),
        None => Ok(Amount {
            pieces: 0,
            tenths: 0,
        }),
    }
}

/// The balances, by the rows of a waybill.
pub(crate) fn balances_by(rows: &[CountRow]) -> Result<Balances, StoreFault>
    ensures { (counts : FinMap count_cmp Count) (book : List Move) (w : ℕ)
        → map count_meant rows.now ≡ filter (counts_for (pos w)) (entries counts)
        → AreCounts counts book
        → IfOk result (λ balances. balances ≡ balances_of book w) }
{
    let taken = drawn(rows, &Place::Hand)?;
    let found = drawn(rows, &Place::Surplus)?;
    let free = held(rows, &Place::Free)?;
    let missing = held(rows, &Place::Missing)?;
    let departed = held(rows, &Place::Departed)?;
    let delivered = held(rows, &Place::Delivered)?;
    let transferred = held(rows, &Place::Transferred)?;
    Ok(Balances {
        taken,
        found,
        free,
        missing,
        departed,
        delivered,
        transferred,
    })
}

/// The sum at a place that isn't built, by the rows of a waybill.
fn sum_by(rows: &[CountRow], place: &Place) -> Tally
    ensures { (counts : FinMap count_cmp Count) (book : List Move) (w : ℕ)
        → map count_meant rows.now ≡ filter (counts_for (pos w)) (entries counts)
        → AreCounts counts book
        → is_built place.now ≡ false
        → result ≡ running book w place.now }
{
    let code = place_code(place);
    match at_place(rows, code) {
        Some(sum) => sum,
        None => Tally {
            pieces: 0,
            tenths: 0,
        },
    }
}

/// The sums at all places that aren't built, by the rows of a waybill.
fn sums_by(rows: &[CountRow]) -> PlaceSums
    ensures { (counts : FinMap count_cmp Count) (book : List Move) (w : ℕ)
        → map count_meant rows.now ≡ filter (counts_for (pos w)) (entries counts)
        → AreCounts counts book
        → AreSumsOf result (running book w) }
{
    PlaceSums {
        hand: sum_by(rows, &Place::Hand),
        surplus: sum_by(rows, &Place::Surplus),
        free: sum_by(rows, &Place::Free),
        departed: sum_by(rows, &Place::Departed),
        delivered: sum_by(rows, &Place::Delivered),
        missing: sum_by(rows, &Place::Missing),
        transferred: sum_by(rows, &Place::Transferred),
    }
}

/// Reads the sum of a waybill's moves, inside a transaction or outside; from then on its sums are
/// known. A fault: the database call failed, or a balance is out of range. A fault outside changes
/// nothing while the store is open.
pub fn balances<S: TableStore>(
    store: &mut S,
    known: &mut KnownSums,
    awb: &Awb,
) -> Result<Balances, StoreFault>
    ensures reads { Reads (S.view store.old) (S.view store.new) result
        (λ tables balances. (book : List Move) → AreCounts tables.counts book
        → (balances ≡ balances_of book awb.now)
        × (AreKnown known.old (running book) → AreKnown known.new (running book))) }
    ensures known_at_err { OnErr result (known.new ≡ known.old) }
{
    let number = awb_key(awb);
    let rows = store.read(CountsOf { awb: number })?;
    let balances = balances_by(&rows)?;
    known.counts = Some(CountSums {
        awb: *awb,
        sums: sums_by(&rows),
    });
    Ok(balances)
}
