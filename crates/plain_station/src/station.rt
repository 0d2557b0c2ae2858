#![tactic(auto, using(crate::proofs::Reading::reads_here, crate::proofs::Reading::hands_here))]

ghost use Rattle.std.specs.Prelude.{◌≡◌};
ghost use Rattle.plain_station.specs.State.{in_memory, or_memory};
ghost use Rattle.station_core.specs.Step.{opening};

use agent_stock::{Holder, StockRun};
use awb_number::Awb;
use imp_fields::Airport;
use state_store::MapState;
use station_core::{
    ActFault, AnnouncedRow, BookQuery, BookRow, ExpectedQuery, ExpectedRow, FlightRow, Input,
    IrregularRow, Keeper, KeptReply, Key, Message, MessageQuery, Reply, ShedRow, Sink, Summary,
    TrailQuery, TrailRow, Waybill,
};
use station_days::Moment;
use station_engine::StoredStation;
use std::alloc::Global;

/// A station in memory. It makes the next state beside the old one: so its only faults are
/// `Refused` and `Memory`, and after both it keeps the state that it had.
#[derive(Drop)]
pub struct PlainStation {
    alloc: Global,
    station: StoredStation<MapState>,
}

/// Returns what a reader returned, with `Memory` for any fault: maps in memory have no other.
fn or_memory<T>(read: Result<T, ActFault>) -> Result<T, ActFault>
    ensures { result ≡ or_memory read }
{
    match read {
        Ok(value) => Ok(value),
        Err(_) => Err(ActFault::Memory),
    }
}

impl PlainStation {
    /// Returns an empty station at an airport.
    pub fn new(alloc: Global, here: Airport) -> PlainStation
        ensures { in_memory.keeps result (opening here) }
    {
        PlainStation {
            alloc,
            station: StoredStation::over(alloc, MapState::new(alloc, here)),
        }
    }
}

impl Keeper for PlainStation {
    ghost keeping = { in_memory };

    ghost settled = { λ k s keeps sound found finds. absurd finds };

    ghost lawful = { λ k s sound finds. absurd finds };

    fn act(&mut self, input: &Input<'_>, at: Moment) -> Result<Reply, ActFault> {
        let Ok(state) = self.station.store().try_clone() else {
            return Err(ActFault::Memory);
        };
        let mut next = StoredStation::over(self.alloc, state);
        match next.act_on(input, at) {
            Ok(reply) => {
                self.station = next;
                Ok(reply)
            }
            Err(ActFault::Refused(refusal)) => Err(ActFault::Refused(refusal)),
            Err(_) => Err(ActFault::Memory),
        }
    }

    fn holder(&mut self, number: &Awb) -> Result<Option<Holder>, ActFault> {
        or_memory(self.station.holder(number))
    }

    fn waybill(&mut self, number: &Awb) -> Result<Option<Waybill>, ActFault> {
        match self.station.waybill(number) {
            Ok(waybill) => Ok(waybill),
            Err(_) => Err(ActFault::Memory),
        }
    }

    fn kept_key(&mut self, key: &Key) -> Result<Option<KeptReply>, ActFault> {
        or_memory(self.station.kept_key(key))
    }

    fn summary(&mut self) -> Result<Summary, ActFault> {
        or_memory(self.station.summary())
    }

    fn stock<S: Sink<StockRun>>(&mut self, sink: &mut S) -> Result<(), ActFault> {
        or_memory(self.station.stock(sink))
    }

    fn announced<S: Sink<AnnouncedRow>>(&mut self, sink: &mut S) -> Result<(), ActFault> {
        or_memory(self.station.announced(sink))
    }

    fn shed<S: Sink<ShedRow>>(&mut self, sink: &mut S) -> Result<(), ActFault> {
        or_memory(self.station.shed(sink))
    }

    fn flights<S: Sink<FlightRow>>(&mut self, sink: &mut S) -> Result<(), ActFault> {
        or_memory(self.station.flights(sink))
    }

    fn expected_by<S: Sink<ExpectedRow>>(
        &mut self,
        query: &ExpectedQuery,
        sink: &mut S,
    ) -> Result<(), ActFault> {
        or_memory(self.station.expected_by(query, sink))
    }

    fn irregular<S: Sink<IrregularRow>>(&mut self, sink: &mut S) -> Result<(), ActFault> {
        or_memory(self.station.irregular(sink))
    }

    fn book_by<S: Sink<BookRow>>(
        &mut self,
        query: &BookQuery,
        sink: &mut S,
    ) -> Result<(), ActFault> {
        or_memory(self.station.book_by(query, sink))
    }

    fn messages_by<S: Sink<Message>>(
        &mut self,
        query: &MessageQuery,
        sink: &mut S,
    ) -> Result<(), ActFault> {
        or_memory(self.station.messages_by(query, sink))
    }

    fn messages_about<S: Sink<Message>>(
        &mut self,
        awb: &Awb,
        sink: &mut S,
    ) -> Result<(), ActFault> {
        or_memory(self.station.messages_about(awb, sink))
    }

    fn trail_by<S: Sink<TrailRow>>(
        &mut self,
        query: &TrailQuery,
        sink: &mut S,
    ) -> Result<(), ActFault> {
        or_memory(self.station.trail_by(query, sink))
    }
}
