ghost use Rattle.std.specs.Prelude.{◌≡◌, OnOk, IfOk, cond, map};
ghost use Rattle.table_audits.specs.Common.{eq_by_cmp, get, unless_nothing, come_to, move_meant, waybill_meant, flight_entry, Tables};
ghost use Rattle.table_audits.specs.Moves.{AreBeside, posting_in, IsPostedOr};

use crate::lookups::spot_of;
use crate::rows::is_fit;
use crate::sums::{Posting, Spot};
use row_codec::{Tally, awb_key, move_by};
use shipment_machine::Move;
use station_rows::{MoveRow, WaybillRow};
use std::alloc::Global;
use std::collections::BTreeMap;
use table_load::FlightEntry;

/// Memory ran out for a book's sums, or a sum doesn't fit into 64 bits, which takes more than 10^12
/// moves.
#[derive(Clone, Copy)]
pub(crate) struct NoRoom;

/// Returns the amount stored under a key, plus another amount.
fn come_to<K: Ord + Drop>(tallies: &BTreeMap<K, Tally>, key: &K, by: Tally) -> Result<Tally, NoRoom>
    ensures { IfOk result (λ sum. sum ≡ come_to (λ t. t) (get K.cmp tallies.now key.now) by) }
{
    match tallies.get(key) {
        None => Ok(by),
        Some(tally) => match tally.plus(by) {
            Some(sum) => Ok(sum),
            None => Err(NoRoom),
        },
    }
}

/// Adds an amount under a key. An amount of zero isn't stored.
pub(crate) fn post<K: Ord + Drop>(
    tallies: &mut BTreeMap<K, Tally>,
    key: K,
    by: Tally,
) -> Result<(), NoRoom>
    ensures { OnOk result ((q : K)
        → get K.cmp tallies.new q ≡ cond (eq_by_cmp K.cmp key q)
        (unless_nothing (come_to (λ t. t) (get K.cmp tallies.old key) by)) (get K.cmp tallies.old q)) }
{
    let sum = come_to(tallies, &key, by)?;
    if sum.is_nothing() {
        tallies.remove(&key);
        return Ok(());
    }
    match tallies.insert(key, sum) {
        Ok(_) => Ok(()),
        Err(_) => Err(NoRoom),
    }
}

fn posted(movement: &Move, from: Spot, to: Spot) -> Posting
    ensures { result ≡ posting_in movement.now from to }
{
    Posting {
        awb: awb_key(&movement.awb),
        from,
        to,
        amount: Tally {
            pieces: i64::from(movement.pieces.number()),
            tenths: i64::from(movement.tenths.number()),
        },
    }
}

/// Returns the posting of a row, or `None` if it is out of range or not a lawful move.
pub(crate) fn posting_of(
    row: &MoveRow,
    waybills: &[WaybillRow],
    flights: &[FlightEntry],
) -> Option<Posting>
    ensures { (t : Tables) → AreBeside t (map waybill_meant waybills.now)
        (map flight_entry flights.now) → IsPostedOr t (move_meant row.now) result }
{
    let movement = move_by(row)?;
    if !is_fit(&movement, waybills) {
        return None;
    }
    let from = spot_of(&movement.from, row, flights)?;
    let to = spot_of(&movement.to, row, flights)?;
    Some(posted(&movement, from, to))
}
