//! Movements for readers; those of a flight are read from the part of the book in which they lie.
//! The rows that were looked for and weren't there.

ghost use Rattle.table_state.specs.Common.{book_by, On, HandsOut, StaysAtRest};
ghost use Rattle.state_store.specs.Store.{Survives};
ghost use Rattle.table_state.specs.Shown.{in_tables};

use crate::flight_spans::Filling;
use crate::handing::{Telling, ended};
use crate::state::TableState;
use crate::status_spans::StatusFilling;
use awb_number::Awb;
use row_codec::{day_number, flight_text, move_query};
use shipment_machine::FlightDate;
use state_store::{StateStore, StoreFault};
use station_core::{BookQuery, BookRow, MessageQuery, Sink};
use station_rows::{MovesFor, MovesWithin, TableStore};
use std::alloc::Global;
use std::collections::HashSet;

impl<S: TableStore> TableState<S> {
    /// Hands out the queried movements, by one statement.
    pub(crate) fn hand_book<K: Sink<BookRow>>(
        &mut self,
        query: &BookQuery,
        sink: &mut K,
    ) -> Result<(), StoreFault>
        ensures { HandsOut (in_tables S.view) self.old self.new result K.takes
            (λ s. book_by query.now s.cargo) sink.old sink.new }
    {
        let asked = move_query(self.alloc, *query, self.counted.sizes.moves)?;
        let mut telling = Telling::new(sink);
        let read = self
            .store
            .hand_out(MovesFor { query: &asked }, &mut telling);
        ended(read, telling.is_stuck())
    }

    /// Finds the spans of flights, if they aren't known, by one pass over the book. If it fails,
    /// they stay unknown.
    pub(crate) fn fill_spans(&mut self)
        ensures rests { StaysAtRest (in_tables S.view) self.old self.new }
        ensures survives { Survives (in_tables S.view) self.old self.new }
    {
        if self.counted.spans.flights.kept.is_some() {
            return;
        }
        let mut filling = Filling::new(self.alloc);
        match self.hand_book(&BookQuery::All, &mut filling) {
            Ok(()) => self.counted.spans.flights.kept = filling.kept,
            Err(_) => {}
        }
    }

    /// Finds the spans of waybills in the outbox, if they aren't known, by one pass over it. If it
    /// fails, they stay unknown.
    pub(crate) fn fill_statuses(&mut self)
        ensures rests { StaysAtRest (in_tables S.view) self.old self.new }
        ensures survives { Survives (in_tables S.view) self.old self.new }
    {
        if self.counted.spans.statuses.kept.is_some() {
            return;
        }
        let mut filling = StatusFilling::new(self.alloc);
        match self.messages_by(&MessageQuery::After(0), &mut filling) {
            Ok(()) => self.counted.spans.statuses.kept = filling.kept,
            Err(_) => {}
        }
    }

    /// Finds the spans at the second query for a flight, so that a single one costs one pass.
    fn find_spans(&mut self)
        ensures rests { StaysAtRest (in_tables S.view) self.old self.new }
        ensures survives { Survives (in_tables S.view) self.old self.new }
    {
        if !self.counted.spans.flights.asked {
            self.counted.spans.flights.asked = true;
            return;
        }
        self.fill_spans();
    }

    /// Hands out the movements of a flight: of its span, or of the whole book if that isn't known.
    fn hand_span<K: Sink<BookRow>>(
        &mut self,
        flight: &FlightDate,
        sink: &mut K,
    ) -> Result<(), StoreFault>
        ensures { HandsOut (in_tables S.view) self.old self.new result K.takes
            (λ s. book_by (On flight.now) s.cargo) sink.old sink.new }
    {
        let Some(span) = self.counted.spans.flights.of(flight) else {
            return self.hand_book(&BookQuery::On(*flight), sink);
        };
        let name = flight_text(self.alloc, &flight.flight)?;
        let within = MovesWithin {
            flight: &name,
            day: day_number(flight.day),
            after: i64::from(span.after),
            last: i64::from(span.last),
        };
        let mut telling = Telling::new(sink);
        let read = self.store.hand_out(within, &mut telling);
        ended(read, telling.is_stuck())
    }

    /// Hands out the movements of a flight.
    pub(crate) fn hand_flight<K: Sink<BookRow>>(
        &mut self,
        flight: &FlightDate,
        sink: &mut K,
    ) -> Result<(), StoreFault>
        ensures { HandsOut (in_tables S.view) self.old self.new result K.takes
            (λ s. book_by (On flight.now) s.cargo) sink.old sink.new }
    {
        self.find_spans();
        self.hand_span(flight, sink)
    }
}

/// The most waybills that are remembered of a table, as many as a telegram has lines.
const MOST_REMEMBERED: usize = 1_000;

/// The rows that were looked for and not found, and that were not written since: what a command
/// reads is mostly what its plan then writes, so the write need not look for its row again.
///
/// It is advice. No clause rests on it: where a row is remembered as missing that is there, its
/// insertion fails in the database, and the tables stay right. Where one that is missing isn't
/// remembered, as after memory was refused, its write looks for it.
#[derive(Drop)]
pub(crate) struct Missed {
    waybills: HashSet<u64>,
    flight: Option<FlightDate>,
    // The flight that the waybills in `expected` were looked for on.
    manifest: Option<FlightDate>,
    expected: HashSet<u64>,
}

/// Remembers a waybill, if memory is given for it. A full set is emptied first.
fn remember(waybills: &mut HashSet<u64>, awb: &Awb) {
    if waybills.len() >= MOST_REMEMBERED {
        waybills.clear();
    }
    let _remembered = waybills.insert(awb.key());
}

impl Missed {
    /// Nothing was looked for yet.
    pub(crate) fn new(alloc: Global) -> Missed {
        Missed {
            waybills: HashSet::new(alloc),
            flight: None,
            manifest: None,
            expected: HashSet::new(alloc),
        }
    }

    /// Nothing is declared of a waybill.
    pub(crate) fn note_waybill(&mut self, awb: &Awb) {
        remember(&mut self.waybills, awb);
    }

    /// Returns whether the row of a waybill was remembered as missing, and forgets it.
    pub(crate) fn take_waybill(&mut self, awb: &Awb) -> bool {
        self.waybills.remove(&awb.key())
    }

    /// Nothing is noted of a flight. The last such flight is remembered.
    pub(crate) fn note_flight(&mut self, flight: &FlightDate) {
        self.flight = Some(*flight);
    }

    /// Returns whether the row of a flight was remembered as missing, and forgets it.
    pub(crate) fn take_flight(&mut self, flight: &FlightDate) -> bool {
        let is_missing = self.flight == Some(*flight);
        if is_missing {
            self.flight = None;
        }
        is_missing
    }

    /// Nothing is expected of a waybill on a flight. The waybills of the last such flight are
    /// remembered.
    pub(crate) fn note_expected(&mut self, flight: &FlightDate, awb: &Awb) {
        if self.manifest != Some(*flight) {
            self.expected.clear();
            self.manifest = Some(*flight);
        }
        remember(&mut self.expected, awb);
    }

    /// Returns whether the row of a waybill on a flight was remembered as missing, and forgets it.
    pub(crate) fn take_expected(&mut self, flight: &FlightDate, awb: &Awb) -> bool {
        self.manifest == Some(*flight) && self.expected.remove(&awb.key())
    }
}
