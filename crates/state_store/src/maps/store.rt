//! A station's state in memory, as a store.
#![tactic(auto, using(crate::proofs::Surviving::survives_so, crate::proofs::Surviving::leaves_so, crate::proofs::Surviving::cargo_is))]

ghost use Rattle.std.specs.Prelude.{◌≡◌, ◌≤◌};
ghost use Rattle.state_store.specs.Store.{in_memory};
ghost use Rattle.state_store.specs.Common.{most_rows};

use crate::maps::asked::{lines, messages, movements};
use crate::maps::state::{AirportKey, MapState};
use crate::{FlightKey, StateStore, StatusOf, StoreFault, WaybillQuery};
use agent_stock::{Holder, Order, StockFault, StockRun};
use awb_number::Awb;
use imp_fields::Airport;
use shipment_machine::{
    Amount, Balances, Change, Declared, Expected, FlightDate, Move, Outbound, Part,
};
use station_core::{
    AnnouncedRow, BookQuery, BookRow, Expectation, ExpectedQuery, KeptReply, Key, Load, Message,
    MessageQuery, NotedFlight, Sink, Sizes, TrailQuery, TrailRow, WaybillBalances,
    expectations_for, hand_out,
};

/// Returns the length of a list, if its rows can be numbered.
fn count(len: usize) -> u32
    ensures { len ≤ most_rows → result ≡ len }
{
    u32::try_from(len).unwrap_or(u32::MAX)
}

impl StateStore for MapState {
    ghost storing = { in_memory };

    ghost settled = { λ k s shown sound found finds. absurd finds };

    ghost numbered = { λ k x shown sound. shown.room };

    fn begin(&mut self) -> Result<(), StoreFault> {
        Ok(())
    }

    fn commit(&mut self) -> Result<(), StoreFault> {
        Ok(())
    }

    fn kept_key(&mut self, key: &Key) -> Result<Option<KeptReply>, StoreFault> {
        match self.kept_keys.get(key.as_bytes()) {
            None => Ok(None),
            Some(kept) => Ok(Some(KeptReply {
                request: kept.0.clone()?,
                count: kept.1,
            })),
        }
    }

    fn kept_text(&mut self, text: &[u8]) -> Result<Option<u32>, StoreFault> {
        Ok(self.kept_texts.get(text).copied())
    }

    fn declared(&mut self, awb: &Awb) -> Result<Option<Declared>, StoreFault> {
        Ok(self.declared.get(&awb.key()).copied())
    }

    fn holder(&mut self, awb: &Awb) -> Result<Option<Holder>, StoreFault> {
        Ok(self.stock.get(awb))
    }

    fn has_moves(&mut self, awb: &Awb) -> Result<bool, StoreFault> {
        Ok(self.book.has_moves(awb))
    }

    fn balances(&mut self, awb: &Awb) -> Result<Balances, StoreFault> {
        self.book.balances(awb)
    }

    fn load(&mut self, awb: &Awb, flight: &FlightDate) -> Result<Amount, StoreFault> {
        self.book.load(awb, flight)
    }

    fn aboard(&mut self, flight: &FlightDate) -> Result<Vec<Load>, StoreFault> {
        self.book.aboard(self.alloc, flight)
    }

    fn waybills_on(&mut self, flight: &FlightDate) -> Result<usize, StoreFault> {
        Ok(self.book.aboard(self.alloc, flight)?.len())
    }

    fn outbound(&mut self, flight: &FlightDate) -> Result<Option<Outbound>, StoreFault> {
        Ok(self.flights.get(&FlightKey::of(flight)).copied())
    }

    fn expected(&mut self, flight: &FlightDate, awb: &Awb) -> Result<Option<Expected>, StoreFault> {
        Ok(self.expected.get(flight, awb))
    }

    fn has_part(&mut self, part: &Part) -> Result<bool, StoreFault> {
        let flight = FlightKey::of(&part.flight);
        let letters = part.airport.letters();
        let key = (flight, AirportKey { letters }, part.number.number());
        Ok(self.parts.contains_key(&key))
    }

    fn here(&self) -> Airport {
        self.here
    }

    fn sizes(&self) -> Sizes {
        Sizes {
            moves: count(self.book.moves.len()),
            lines: count(self.trail.len()),
            messages: count(self.outbox.len()),
        }
    }

    fn confirmed(&self) -> u32 {
        self.confirmed
    }

    fn add_move(&mut self, movement: &Move) -> Result<(), StoreFault> {
        self.put_move(movement)
    }

    fn write(&mut self, text: &[u8], change: &Change<'_>) -> Result<(), StoreFault> {
        match change {
            Change::Declare { awb, declared } => self.declare(awb, *declared),
            Change::UseUp { awb } => self.use_up(awb),
            Change::NoteFlight { flight, outbound } => self.note_flight(flight, *outbound),
            Change::Expect {
                flight,
                awb,
                expected,
            } => self.expect(flight, awb, *expected),
            Change::NotePart { part } => self.note_part(part, text),
            Change::Trail { awb, line } => self.add_line(awb, line),
            Change::Confirm { upto } => {
                self.confirm(*upto);
                Ok(())
            }
        }
    }

    fn add_message(&mut self, text: &[u8]) -> Result<(), StoreFault> {
        self.put_message(text)
    }

    fn keep_key(&mut self, key: &Key, request: &str, count: u32) -> Result<(), StoreFault> {
        self.keep_reply(key, request, count)
    }

    fn keep_text(&mut self, text: &[u8], count: u32) -> Result<(), StoreFault> {
        self.keep_count(text, count)
    }

    fn carry_out_order(&mut self, order: &Order) -> Result<(), StockFault<StoreFault>> {
        match self.stock.carry_out(order) {
            Ok(()) => Ok(()),
            Err(StockFault::Refused(number, lowest)) => Err(StockFault::Refused(number, lowest)),
            Err(StockFault::Rows(_)) => Err(StockFault::Rows(StoreFault)),
        }
    }

    fn runs(&mut self) -> Result<Vec<StockRun>, StoreFault> {
        self.stock.runs(self.alloc)
    }

    fn waybills(&mut self, query: WaybillQuery) -> Result<Vec<WaybillBalances>, StoreFault> {
        self.book.waybills(self.alloc, query)
    }

    fn announced(&mut self) -> Result<Vec<AnnouncedRow>, StoreFault> {
        self.announced_rows()
    }

    fn noted(&mut self) -> Result<Vec<NotedFlight>, StoreFault> {
        self.noted_rows()
    }

    fn expectations(&mut self, query: &ExpectedQuery) -> Result<Vec<Expectation>, StoreFault> {
        let all = self.expected.listed(self.alloc)?;
        Ok(expectations_for(self.alloc, *query, &all)?)
    }

    fn book_by<K: Sink<BookRow>>(
        &mut self,
        query: &BookQuery,
        sink: &mut K,
    ) -> Result<(), StoreFault> {
        let rows = movements(self.alloc, &self.book.moves, query)?;
        hand_out(sink, rows);
        Ok(())
    }

    fn messages_by<K: Sink<Message>>(
        &mut self,
        query: &MessageQuery,
        sink: &mut K,
    ) -> Result<(), StoreFault> {
        let after = query.begins_after(self.confirmed);
        let rows = messages(self.alloc, &self.outbox, after)?;
        hand_out(sink, rows);
        Ok(())
    }

    fn messages_about<K: Sink<Message>>(
        &mut self,
        awb: &Awb,
        sink: &mut K,
    ) -> Result<(), StoreFault> {
        let mut statuses = StatusOf {
            sink,
            awb: *awb,
            last: None,
        };
        self.messages_by(&MessageQuery::After(0), &mut statuses)
    }

    fn trail_by<K: Sink<TrailRow>>(
        &mut self,
        query: &TrailQuery,
        sink: &mut K,
    ) -> Result<(), StoreFault> {
        let rows = lines(self.alloc, &self.trail, query)?;
        hand_out(sink, rows);
        Ok(())
    }
}
