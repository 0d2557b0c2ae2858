ghost use Rattle.std.specs.Prelude.{◌≡◌, ◌≤◌, ◌+◌, ◌&&◌, ◌↔◌, ℕ, nat_le, IsTrue, List, length, map, slice_get};
ghost use Rattle.table_audits.specs.Common.{IsOrdered, get, entries, list_all, FlightDate, flight_entry, Tables, running, is_flight_row, book_in, most_waybills};
ghost use Rattle.table_audits.specs.Moves.{AreSums, AreFlightsOf, count_place_cmp, build_place_cmp, AreBalances, overdrawn, drawn_by, is_covered, is_left, is_within, is_lawful_count, is_open, is_lawful_build, on_flight};

use crate::sums::{BookSums, BuildPlace, CountPlace};
use imp_fields::{MOST_PIECES, MOST_TENTHS};
use row_codec::Tally;
use shipment_machine::MOST_WAYBILLS;
use table_load::FlightEntry;

/// The largest numbers of pieces and of tenths of a kilogram of a waybill.
const PIECES: u64 = MOST_PIECES as u64;

const TENTHS: u64 = MOST_TENTHS as u64;

/// Pieces and tenths of a kilogram from a place outside.
#[derive(Clone, Copy)]
struct Drawn {
    pieces: u64,
    tenths: u64,
}

fn overdrawn(balance: &i64) -> u64
    ensures { result ≡ overdrawn balance.now }
{
    if *balance < 0 {
        return balance.unsigned_abs();
    }
    0
}

/// Returns what came from a place outside.
fn drawn_at(sums: &BookSums, place: &CountPlace) -> Drawn
    ensures pieces { result.pieces ≡ (drawn_by
        (get count_place_cmp sums.now.counts place.now)).pieces }
    ensures tenths { result.tenths ≡ (drawn_by
        (get count_place_cmp sums.now.counts place.now)).tenths }
{
    match sums.counts.get(place) {
        None => Drawn {
            pieces: 0,
            tenths: 0,
        },
        Some(tally) => Drawn {
            pieces: overdrawn(&tally.pieces),
            tenths: overdrawn(&tally.tenths),
        },
    }
}

/// Returns whether the sum of two numbers is at most `most`.
fn are_at_most(one: u64, other: u64, most: u64) -> bool
    ensures { result ≡ nat_le (one + other) most }
{
    if one > most {
        return false;
    }
    other <= most - one
}

/// Returns whether what came of the waybill by hand and as surplus is at most 9,999 pieces and
/// 999,999 tenths.
fn is_within(sums: &BookSums, place: &CountPlace) -> bool
    ensures { result ≡ is_within sums.now place.now.awb }
{
    let hand = drawn_at(
        sums,
        &CountPlace {
            awb: place.awb,
            place: 0,
        },
    );
    let surplus = drawn_at(
        sums,
        &CountPlace {
            awb: place.awb,
            place: 1,
        },
    );
    are_at_most(hand.pieces, surplus.pieces, PIECES)
        && are_at_most(hand.tenths, surplus.tenths, TENTHS)
}

fn is_left(tally: &Tally) -> bool
    ensures { result ≡ is_left tally.now }
{
    tally.pieces >= 1 && tally.pieces <= tally.tenths
}

fn is_covered(tally: &Tally) -> bool
    ensures { result ≡ is_covered tally.now }
{
    tally.pieces <= 0 && tally.tenths <= 0
}

/// Returns whether a sum at a place that isn't built is lawful.
fn is_lawful_count(sums: &BookSums, place: &CountPlace, tally: &Tally) -> bool
    ensures { result ≡ is_lawful_count sums.now (place.now, tally.now) }
{
    if place.place < 2 {
        return is_within(sums, place) && (place.place != 0 || is_covered(tally));
    }
    is_left(tally)
}

fn are_counts_lawful(sums: &BookSums) -> bool
    ensures each { result ≡ list_all (is_lawful_count sums.now) sums.now.counts.entries }
    ensures ordered { IsOrdered count_place_cmp sums.now.counts }
{
    for (place, tally) in &sums.counts {
        if !is_lawful_count(sums, place, tally) {
            return false;
        }
    }
    true
}

fn is_open(flights: &[FlightEntry], at: usize) -> bool
    ensures { result ≡ is_open (slice_get (map flight_entry flights.now) at) }
{
    match flights.get(at) {
        None => false,
        Some(flight) => flight.closed != 1,
    }
}

/// Returns whether a sum on a flight is lawful: something is left, and the flight isn't closed.
fn is_lawful_build(flights: &[FlightEntry], place: &BuildPlace, tally: &Tally) -> bool
    ensures { result ≡ is_lawful_build (map flight_entry flights.now) (place.now, tally.now) }
{
    is_left(tally) && is_open(flights, place.flight)
}

fn are_builds_lawful(sums: &BookSums, flights: &[FlightEntry]) -> bool
    ensures each { result ≡ list_all (is_lawful_build (map flight_entry flights.now))
        sums.now.builds.entries }
    ensures ordered { IsOrdered build_place_cmp sums.now.builds }
{
    for (place, tally) in &sums.builds {
        if !is_lawful_build(flights, place, tally) {
            return false;
        }
    }
    true
}

/// Returns whether each flight has at most 500 waybills. The sums of a flight are adjacent.
fn is_room_kept(sums: &BookSums) -> bool
    ensures { IsTrue result
        ↔ ((i : ℕ) → length (on_flight i sums.now.builds.entries) ≤ most_waybills) }
{
    let mut flight = 0;
    let mut waybills: usize = 0;
    for (place, _) in &sums.builds {
        waybills = if place.flight == flight {
            waybills + 1
        } else {
            1
        };
        flight = place.flight;
        if waybills > MOST_WAYBILLS {
            return false;
        }
    }
    true
}

/// Returns whether the balances of a station are lawful: no place of the station gave more than it
/// got, at most 9,999 pieces and 999,999 tenths came of a waybill, closed flights are empty, and
/// each flight has at most 500 waybills. `flights` is the whole table `flight`.
pub(crate) fn are_balances_lawful(sums: &BookSums, flights: &[FlightEntry]) -> bool
    ensures exact { (t : Tables) (listed : List FlightDate)
        → IsTrue (list_all is_flight_row (entries t.flights))
        → entries t.flights ≡ map flight_entry flights.now → AreFlightsOf listed (entries t.flights)
        → AreSums listed sums.now (running (book_in t.moves)) → (IsTrue result ↔ AreBalances t) }
{
    if !are_counts_lawful(sums) {
        return false;
    }
    if !are_builds_lawful(sums, flights) {
        return false;
    }
    is_room_kept(sums)
}
