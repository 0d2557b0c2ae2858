ghost use Rattle.std.specs.Prelude.{◌≡◌, ◌↔◌, map, false, replicate, IsTrue, IfOk};
ghost use Rattle.table_audits.specs.Common.{list_all, AllByRecursion, entries, IsLawfulMove, flight_entry, Tables, is_set, is_flight_row, book_in};
ghost use Rattle.table_audits.specs.Moves.{AreDepartures, is_marked, marked, IsDeparted, listed_in};
ghost use Rattle.table_audits.specs.Lawful.{cargo_in};

use crate::sums::{Posting, Spot};
use std::alloc::{AllocError, Global};
use table_load::FlightEntry;

/// The code of the place of departed pieces.
const DEPARTED: i64 = 4;

pub(crate) fn is_marked(marks: &[bool], spot: &Spot) -> bool
    ensures { result ≡ is_marked marks.now spot.now }
{
    match *spot {
        Spot::Plain(_) => false,
        Spot::OnFlight(flight) => marks.get(flight).copied().unwrap_or(false),
    }
}

/// Marks the flight with which a move departs.
pub(crate) fn mark(marks: &mut Vec<bool>, movement: &Posting)
    ensures { marks.new.items ≡ marked marks.old.items movement.now.from movement.now.to }
{
    let Spot::OnFlight(flight) = movement.from else {
        return;
    };
    let Spot::Plain(code) = movement.to else {
        return;
    };
    if code == DEPARTED && flight < marks.len() {
        marks[flight] = true;
    }
}

/// Returns the marks of `count` flights, none of them set.
pub(crate) fn no_marks(alloc: Global, count: usize) -> Result<Vec<bool>, AllocError>
    ensures { IfOk result (λ marks. marks.items ≡ replicate count false) }
{
    vec![in alloc; false; count]
}

/// Returns whether the marks are those of the closed flights.
fn are_closed(flights: &[FlightEntry], marks: &[bool]) -> bool
    ensures { IsTrue result ↔
        (map (λ row. is_set (flight_entry row).1.closed) flights.now ≡ map (λ mark. mark)
        marks.now) }
{
    let mut ahead = marks.iter();
    for row in flights {
        let Some(departed) = ahead.next() else {
            return false;
        };
        if (row.closed == 1) != *departed {
            return false;
        }
    }
    ahead.next().is_none()
}

/// Returns whether exactly the departed flights are closed. `departed` marks the flights in the
/// moves of the book, each lawful by itself, of which none builds on a departed flight. The rows of
/// `flight` are in range and in the order of their keys.
pub(crate) fn are_departures_lawful(departed: &[bool], flights: &[FlightEntry]) -> bool
    ensures exact { (t : Tables) → IsTrue (list_all is_flight_row (entries t.flights))
        → entries t.flights ≡ map flight_entry flights.now
        → IsDeparted (listed_in t) (book_in t.moves) departed.now
        → AllByRecursion (IsLawfulMove (cargo_in t)) (book_in t.moves)
        → (IsTrue result ↔ AreDepartures t) }
{
    are_closed(flights, departed)
}
