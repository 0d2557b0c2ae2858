#![tactic(auto, using(crate::proofs::Lifting::rests_on, crate::proofs::Lifting::survives_so))]

ghost use Rattle.std.specs.Prelude.{◌≡◌, Some};
ghost use Rattle.table_state.specs.Common.{State, opening, Tables, Means, IsOpening, at_rest};
ghost use Rattle.table_state.specs.Shown.{finds_what_it_shows, HasThese, Knows, in_tables};
ghost use Rattle.station_core.proofs.Rooms.{all_numbered};

use crate::counted::{Boarded, Boardings, KnownCounts, KnownSpans};
use crate::flight_spans::FlightSpans;
use crate::flown::Missed;
use crate::handing::{Telling, ended};
use crate::open_lines::OpenLines;
use crate::status_spans::StatusSpans;
use crate::waybill_sets::{WaybillSets, numbers_of};
use crate::writing::{flights_noted, record_move};
use agent_stock::{Holder, Order, StockFault, StockRun};
use awb_number::Awb;
use imp_fields::Airport;
use row_codec::{
    KnownSums, awb_key, count_of, day_number, expected_by, flight_text, kept_by, line_query,
    message_row, outbound_by, waybill_by,
};
use shipment_machine::{
    Amount, Balances, Change, Declared, Expected, FlightDate, Move, Outbound, Part,
};
use state_store::{StateStore, StatusOf, StoreFault, WaybillQuery};
use station_core::{
    AnnouncedRow, BookQuery, BookRow, Expectation, ExpectedQuery, KeptReply, Key, Load, Message,
    MessageQuery, NotedFlight, Sink, Sizes, TrailQuery, TrailRow, WaybillBalances,
};
use station_rows::{
    AllFlights, ExpectedOn, FlightOn, InsertKept, InsertKeptText, InsertMessage, KeptTextCount,
    KeptUnder, LinesFor, MessagesAfter, MovesOf, PartBody, TableStore, WaybillOf,
};
use std::alloc::Global;

/// The state of a station in the tables of a store.
///
/// A value that a row doesn't say in range is answered as a fault of the store.
#[derive(Drop)]
pub struct TableState<S: TableStore> {
    pub(crate) alloc: Global,
    pub(crate) store: S,
    pub(crate) here: Airport,
    pub(crate) counted: KnownCounts,
    pub(crate) confirmed: u32,
    pub(crate) missed: Missed,
}

impl<S: TableStore> TableState<S> {
    /// The state that the tables of a store mean, of a station at this airport with so many rows
    /// and confirmed messages.
    pub fn over(
        alloc: Global,
        store: S,
        here: Airport,
        sizes: Sizes,
        confirmed: u32,
    ) -> TableState<S>
        ensures shows { (t : Tables) (s : State) → Means t (Some s)
            → Knows here sizes confirmed (at_rest s)
            → ((S.view store).IsSound → HasThese t (S.view store))
            → ⟦<TableState<S> as StateStore>⟧.storing.shows result (at_rest s) }
        ensures sound { ⟦<TableState<S> as StateStore>⟧.storing.is_sound result
            → (S.view store).IsSound }
        ensures same { result.store ≡ store }
    {
        TableState {
            alloc,
            store,
            here,
            counted: KnownCounts {
                sizes,
                boarded: Boardings::none(),
                known: KnownSums::none(),
                waybills: WaybillSets::none(),
                open_lines: OpenLines::none(),
                spans: KnownSpans {
                    flights: FlightSpans::none(),
                    statuses: StatusSpans::none(),
                },
            },
            confirmed,
            missed: Missed::new(alloc),
        }
    }

    /// The state of a new station at an airport.
    pub(crate) fn new(alloc: Global, store: S, here: Airport) -> TableState<S>
        ensures shows { ((S.view store).IsSound → IsOpening here (S.view store))
            → ⟦<TableState<S> as StateStore>⟧.storing.shows result (at_rest (opening here)) }
        ensures sound { ⟦<TableState<S> as StateStore>⟧.storing.is_sound result
            → (S.view store).IsSound }
        ensures same { result.store ≡ store }
    {
        let sizes = Sizes {
            moves: 0,
            lines: 0,
            messages: 0,
        };
        TableState::over(alloc, store, here, sizes, 0)
    }

    /// The store comes back, whatever state it is in.
    pub(crate) fn into_store(self) -> S
        ensures { result ≡ self.store }
    {
        let TableState {
            alloc: _,
            store,
            here: _,
            counted: _,
            confirmed: _,
            missed: _,
        } = self;
        store
    }
}

impl<S: TableStore> StateStore for TableState<S> {
    ghost storing = { in_tables S.view };

    #[tactic(auto, using(crate::proofs::Lifting::begins, crate::proofs::Lifting::survives_so))]
    fn begin(&mut self) -> Result<(), StoreFault> {
        self.store.begin()
    }

    fn commit(&mut self) -> Result<(), StoreFault> {
        self.store.commit()
    }

    fn kept_key(&mut self, key: &Key) -> Result<Option<KeptReply>, StoreFault> {
        match self.store.read(KeptUnder { id: key.as_str() })? {
            None => Ok(None),
            Some(row) => Ok(Some(kept_by(row).ok_or(StoreFault)?)),
        }
    }

    fn kept_text(&mut self, text: &[u8]) -> Result<Option<u32>, StoreFault> {
        let Ok(text) = std::str::from_utf8(text) else {
            return Err(StoreFault);
        };
        match self.store.read(KeptTextCount { body: text })? {
            None => Ok(None),
            Some(count) => Ok(Some(count_of(count).ok_or(StoreFault)?)),
        }
    }

    fn declared(&mut self, awb: &Awb) -> Result<Option<Declared>, StoreFault> {
        match self.store.read(WaybillOf { awb: awb_key(awb) })? {
            None => {
                self.missed.note_waybill(awb);
                Ok(None)
            }
            Some(row) => Ok(Some(waybill_by(&row).ok_or(StoreFault)?.1)),
        }
    }

    fn holder(&mut self, awb: &Awb) -> Result<Option<Holder>, StoreFault> {
        stock_tables::holder(&mut self.store, awb)
    }

    fn has_moves(&mut self, awb: &Awb) -> Result<bool, StoreFault> {
        Ok(!self.store.read(MovesOf { awb: awb_key(awb) })?.is_empty())
    }

    fn balances(&mut self, awb: &Awb) -> Result<Balances, StoreFault> {
        row_codec::balances(&mut self.store, &mut self.counted.known, awb)
    }

    fn load(&mut self, awb: &Awb, flight: &FlightDate) -> Result<Amount, StoreFault> {
        row_codec::load(
            self.alloc,
            &mut self.store,
            &mut self.counted.known,
            awb,
            flight,
        )
    }

    fn aboard(&mut self, flight: &FlightDate) -> Result<Vec<Load>, StoreFault> {
        row_codec::aboard(self.alloc, &mut self.store, &mut self.counted.known, flight)
    }

    fn waybills_on(&mut self, flight: &FlightDate) -> Result<usize, StoreFault> {
        if let Some(number) = self.counted.boarded.number_on(flight) {
            return Ok(number);
        }
        let waybills = row_codec::waybills_on(self.alloc, &mut self.store, flight)?;
        self.counted.boarded.keep(Boarded {
            flight: *flight,
            waybills,
        });
        Ok(waybills)
    }

    fn outbound(&mut self, flight: &FlightDate) -> Result<Option<Outbound>, StoreFault> {
        let text = flight_text(self.alloc, &flight.flight)?;
        match self.store.read(FlightOn {
            flight: &text,
            day: day_number(flight.day),
        })? {
            None => {
                self.missed.note_flight(flight);
                Ok(None)
            }
            Some(row) => Ok(Some(outbound_by(&row).ok_or(StoreFault)?)),
        }
    }

    fn expected(&mut self, flight: &FlightDate, awb: &Awb) -> Result<Option<Expected>, StoreFault> {
        let text = flight_text(self.alloc, &flight.flight)?;
        match self.store.read(ExpectedOn {
            flight: &text,
            day: day_number(flight.day),
            awb: awb_key(awb),
        })? {
            None => {
                self.missed.note_expected(flight, awb);
                Ok(None)
            }
            Some(row) => Ok(Some(expected_by(&row).ok_or(StoreFault)?)),
        }
    }

    fn has_part(&mut self, part: &Part) -> Result<bool, StoreFault> {
        let flight = flight_text(self.alloc, &part.flight.flight)?;
        let airport = part.airport.letters();
        let Ok(airport) = std::str::from_utf8(&airport) else {
            return Err(StoreFault);
        };
        let day = day_number(part.flight.day);
        let seq = i64::from(part.number.number());
        let body = self.store.read(PartBody {
            flight: &flight,
            day,
            airport,
            seq,
        })?;
        Ok(body.is_some())
    }

    fn here(&self) -> Airport {
        self.here
    }

    fn sizes(&self) -> Sizes {
        self.counted.sizes
    }

    fn confirmed(&self) -> u32 {
        self.confirmed
    }

    fn add_move(&mut self, movement: &Move) -> Result<(), StoreFault> {
        let number = self.counted.sizes.moves.checked_add(1).ok_or(StoreFault)?;
        let were = record_move(
            self.alloc,
            &mut self.store,
            &mut self.counted.known,
            number,
            movement,
        )?;
        self.counted.sizes.moves = number;
        self.counted.boarded.post(movement, were);
        self.counted.waybills.post(movement);
        self.counted.spans.flights.post(movement, number);
        Ok(())
    }

    fn write(&mut self, text: &[u8], change: &Change<'_>) -> Result<(), StoreFault> {
        match change {
            Change::Declare { awb, declared } => self.declare(awb, declared),
            Change::UseUp { awb } => self.use_up(awb),
            Change::NoteFlight { flight, outbound } => self.note_flight(flight, outbound),
            Change::Expect {
                flight,
                awb,
                expected,
            } => self.expect(flight, awb, expected),
            Change::NotePart { part } => self.note_part(part, text),
            Change::Trail { awb, line } => self.add_line(awb, line),
            Change::Confirm { upto } => self.confirm(*upto),
        }
    }

    fn add_message(&mut self, text: &[u8]) -> Result<(), StoreFault> {
        let number = self
            .counted
            .sizes
            .messages
            .checked_add(1)
            .ok_or(StoreFault)?;
        let row = message_row(self.alloc, number, text)?;
        self.store.write(InsertMessage { row: &row })?;
        self.counted.sizes.messages = number;
        self.counted.spans.statuses.post(text, number);
        Ok(())
    }

    fn keep_key(&mut self, key: &Key, request: &str, count: u32) -> Result<(), StoreFault> {
        let _text = request.as_bytes();
        self.store.write(InsertKept {
            id: key.as_str(),
            command: request,
            count: i64::from(count),
        })
    }

    fn keep_text(&mut self, text: &[u8], count: u32) -> Result<(), StoreFault> {
        let Ok(text) = std::str::from_utf8(text) else {
            return Err(StoreFault);
        };
        self.store.write(InsertKeptText {
            body: text,
            count: i64::from(count),
        })
    }

    fn carry_out_order(&mut self, order: &Order) -> Result<(), StockFault<StoreFault>> {
        stock_tables::carry_out_order(self.alloc, &mut self.store, order)
    }

    fn runs(&mut self) -> Result<Vec<StockRun>, StoreFault> {
        stock_tables::runs(self.alloc, &mut self.store)
    }

    fn waybills(&mut self, query: WaybillQuery) -> Result<Vec<WaybillBalances>, StoreFault> {
        let rows = self.asked(query)?;
        let kept = numbers_of(self.alloc, &rows)?;
        self.counted.waybills.keep(query, kept);
        Ok(rows)
    }

    fn announced(&mut self) -> Result<Vec<AnnouncedRow>, StoreFault> {
        self.list_announced()
    }

    fn noted(&mut self) -> Result<Vec<NotedFlight>, StoreFault> {
        let rows = self.store.read(AllFlights)?;
        flights_noted(self.alloc, &rows)
    }

    fn expectations(&mut self, query: &ExpectedQuery) -> Result<Vec<Expectation>, StoreFault> {
        match query {
            ExpectedQuery::All => self.all_lines(),
            ExpectedQuery::Open => self.open_lines(),
            ExpectedQuery::On(flight) => self.lines_on(flight),
        }
    }

    fn book_by<K: Sink<BookRow>>(
        &mut self,
        query: &BookQuery,
        sink: &mut K,
    ) -> Result<(), StoreFault> {
        match query {
            BookQuery::On(flight) => self.hand_flight(flight, sink),
            _ => self.hand_book(query, sink),
        }
    }

    fn messages_by<K: Sink<Message>>(
        &mut self,
        query: &MessageQuery,
        sink: &mut K,
    ) -> Result<(), StoreFault> {
        let number = i64::from(query.begins_after(self.confirmed));
        let mut telling = Telling::new(sink);
        let read = self.store.hand_out(MessagesAfter { number }, &mut telling);
        ended(read, telling.is_stuck())
    }

    fn messages_about<K: Sink<Message>>(
        &mut self,
        awb: &Awb,
        sink: &mut K,
    ) -> Result<(), StoreFault> {
        let part = self.counted.spans.statuses.of(awb);
        let mut statuses = StatusOf {
            sink,
            awb: *awb,
            last: part.last,
        };
        self.messages_by(&MessageQuery::After(part.after), &mut statuses)
    }

    fn trail_by<K: Sink<TrailRow>>(
        &mut self,
        query: &TrailQuery,
        sink: &mut K,
    ) -> Result<(), StoreFault> {
        let asked = line_query(*query, self.counted.sizes.lines);
        let mut telling = Telling::new(sink);
        let read = self.store.hand_out(LinesFor { query: asked }, &mut telling);
        ended(read, telling.is_stuck())
    }

    ghost settled = { λ k s shown sound found finds. finds_what_it_shows (S.view k.store) s
        (shown sound).holds found finds };

    ghost numbered = { λ k x shown sound. all_numbered k.counted.sizes x.now.cargo k.counted.fit
        (shown sound).knows.sizes_are };
}
