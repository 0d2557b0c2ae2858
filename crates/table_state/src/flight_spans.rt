//! The parts of the book in which the moves of flights lie, as far as they are known.
ghost use Rattle.std.specs.Prelude.{◌≡◌, ◌∷◌, [], ◌++◌, ◌+◌, length, ℕ, true, List, IfSome};
ghost use Rattle.shipment_machine.specs.Book.{same_place};
ghost use Rattle.table_state.specs.Common.{FlightDate, Built, book_row, is_of_flight, BookRow};
ghost use Rattle.shipment_machine.specs.declared.moves.Move as cargo;
ghost use Rattle.table_state.specs.Shown.{AreCovered, Covers, IsCovered, IsSpanned, LiesIn};

use crate::span::{Span, with_number};
use shipment_machine::{FlightDate, Move, Place};
use station_core::{BookRow, Sink};
use std::alloc::Global;
use std::collections::BTreeMap;

/// The spans of the days of flights, where they are known: all moves of the flights of a day lie in
/// its span. They are found by one pass over the book. From then on a move widens those of its
/// flights.
#[derive(Drop)]
pub(crate) struct FlightSpans {
    // The moves of a flight were asked for.
    pub(crate) asked: bool,
    pub(crate) kept: Option<BTreeMap<u32, Span>>,
}

/// Returns the kept spans after a move of a flight. Without memory for a day nothing is kept.
fn with_flight(
    kept: Option<BTreeMap<u32, Span>>,
    flight: &FlightDate,
    number: u32,
) -> Option<BTreeMap<u32, Span>>
    ensures grows { (day n : ℕ) → IsSpanned kept day n → IsSpanned result day n }
    ensures there { IsSpanned result flight.now.day number }
{
    let mut spans = kept?;
    let day = flight.day.number();
    let span = with_number(spans.get(&day).copied(), number)?;
    match spans.insert(day, span) {
        Ok(_) => Some(spans),
        Err(_) => None,
    }
}

/// Returns the kept spans after a move whose pieces are built on a flight at a place.
fn with_place(
    kept: Option<BTreeMap<u32, Span>>,
    place: &Place,
    number: u32,
) -> Option<BTreeMap<u32, Span>>
    ensures grows { (day n : ℕ) → IsSpanned kept day n → IsSpanned result day n }
    ensures there { (f : FlightDate) → same_place (Built f) place.now ≡ true
        → IsSpanned result f.day number }
{
    match place {
        Place::Built(flight) => with_flight(kept, flight, number),
        _ => kept,
    }
}

/// Returns the kept spans after a move.
fn with_move(
    kept: Option<BTreeMap<u32, Span>>,
    movement: &Move,
    number: u32,
) -> Option<BTreeMap<u32, Span>>
    ensures { Covers kept result (book_row number movement.now) }
{
    let kept = with_place(kept, &movement.from, number);
    let kept = with_place(kept, &movement.to, number);
    match &movement.flight {
        None => kept,
        Some(flight) => with_flight(kept, flight, number),
    }
}

impl FlightSpans {
    /// Returns spans of which nothing is known yet.
    pub(crate) fn none() -> FlightSpans
        ensures { (book : List cargo.Move) → AreCovered result.kept book }
    {
        FlightSpans {
            asked: false,
            kept: None,
        }
    }

    /// Returns the span in which the moves of a flight lie, if it is known. It is empty if no
    /// flight of that day has moves.
    pub(crate) fn of(&self, flight: &FlightDate) -> Option<Span>
        ensures { IfSome result (λ span. (row : BookRow)
            → is_of_flight flight.now row.movement ≡ true
            → IsCovered self.now.kept row → LiesIn span row.number) }
    {
        let spans = self.kept.as_ref()?;
        match spans.get(&flight.day.number()) {
            None => Some(Span { after: 0, last: 0 }),
            Some(span) => Some(*span),
        }
    }

    /// Widens the spans of a move's flights by its number.
    pub(crate) fn post(&mut self, movement: &Move, number: u32)
        ensures { (book : List cargo.Move) → number ≡ length book + 1
            → AreCovered self.old.kept book
            → AreCovered self.new.kept (book ++ movement.now ∷ []) }
    {
        self.kept = with_move(self.kept.take(), movement, number);
    }
}

/// Finds the spans of the rows that it is handed. Without memory for a day it keeps nothing.
#[derive(Drop)]
pub(crate) struct Filling {
    pub(crate) kept: Option<BTreeMap<u32, Span>>,
}

impl Filling {
    /// Starts without rows.
    pub(crate) fn new(alloc: Global) -> Filling {
        Filling {
            kept: Some(BTreeMap::new(alloc)),
        }
    }
}

impl Sink<BookRow> for Filling {
    ghost takes = { λ old row go new. (go ≡ true) × Covers old.kept new.kept row };

    fn take(&mut self, row: BookRow) -> bool {
        self.kept = with_move(self.kept.take(), &row.movement, row.number);
        true
    }
}
