//! A station whose store fails.
use agent_stock::{Holder, StockRun};
use awb_number::Awb;
use plain_station::PlainStation;
use station_core::{
    ActFault, AnnouncedRow, BookQuery, BookRow, ExpectedQuery, ExpectedRow, FlightRow, Input,
    IrregularRow, Keeper, KeptReply, Key, Message, MessageQuery, Reply, ShedRow, Sink, Summary,
    TrailQuery, TrailRow, Waybill,
};
use station_days::Moment;

/// A station that answers a number of inputs, and then has a failed store.
#[derive(Drop)]
pub struct Failing {
    station: PlainStation,
    inputs: u32,
    is_broken: bool,
}

impl Failing {
    pub fn new(station: PlainStation, inputs: u32) -> Failing {
        Failing {
            station,
            inputs,
            is_broken: false,
        }
    }
}

impl Keeper for Failing {
    ghost use Rattle.station_core.specs.Step.{State};

    ghost keeping = { record {
      keeps = λ k s. ⟦<PlainStation as Keeper>⟧.keeping.keeps k.station s;
      is_clean = λ k. Unit {0};
      is_sound = λ k. Unit {0};
      is_broken = λ k. k.is_broken;
      may_find = λ k found. ⊥;
      may_fail = Unit {0};
    } };

    ghost settled = { λ k s keeps sound found finds. absurd finds };

    ghost lawful = { λ k s sound finds. absurd finds };

    fn act(&mut self, input: &Input<'_>, at: Moment) -> Result<Reply, ActFault> {
        if self.is_broken {
            return Err(ActFault::Reopen);
        }
        if self.inputs == 0 {
            self.is_broken = true;
            return Err(ActFault::Store);
        }
        self.inputs -= 1;
        self.station.act(input, at)
    }

    fn holder(&mut self, number: &Awb) -> Result<Option<Holder>, ActFault> {
        if self.is_broken {
            return Err(ActFault::Reopen);
        }
        self.station.holder(number)
    }

    fn waybill(&mut self, number: &Awb) -> Result<Option<Waybill>, ActFault> {
        if self.is_broken {
            return Err(ActFault::Reopen);
        }
        self.station.waybill(number)
    }

    fn kept_key(&mut self, key: &Key) -> Result<Option<KeptReply>, ActFault> {
        if self.is_broken {
            return Err(ActFault::Reopen);
        }
        self.station.kept_key(key)
    }

    fn summary(&mut self) -> Result<Summary, ActFault> {
        if self.is_broken {
            return Err(ActFault::Reopen);
        }
        self.station.summary()
    }

    fn stock<S: Sink<StockRun>>(&mut self, sink: &mut S) -> Result<(), ActFault> {
        if self.is_broken {
            return Err(ActFault::Reopen);
        }
        self.station.stock(sink)
    }

    fn announced<S: Sink<AnnouncedRow>>(&mut self, sink: &mut S) -> Result<(), ActFault> {
        if self.is_broken {
            return Err(ActFault::Reopen);
        }
        self.station.announced(sink)
    }

    fn shed<S: Sink<ShedRow>>(&mut self, sink: &mut S) -> Result<(), ActFault> {
        if self.is_broken {
            return Err(ActFault::Reopen);
        }
        self.station.shed(sink)
    }

    fn flights<S: Sink<FlightRow>>(&mut self, sink: &mut S) -> Result<(), ActFault> {
        if self.is_broken {
            return Err(ActFault::Reopen);
        }
        self.station.flights(sink)
    }

    fn expected_by<S: Sink<ExpectedRow>>(
        &mut self,
        query: &ExpectedQuery,
        sink: &mut S,
    ) -> Result<(), ActFault> {
        if self.is_broken {
            return Err(ActFault::Reopen);
        }
        self.station.expected_by(query, sink)
    }

    fn irregular<S: Sink<IrregularRow>>(&mut self, sink: &mut S) -> Result<(), ActFault> {
        if self.is_broken {
            return Err(ActFault::Reopen);
        }
        self.station.irregular(sink)
    }

    fn book_by<S: Sink<BookRow>>(
        &mut self,
        query: &BookQuery,
        sink: &mut S,
    ) -> Result<(), ActFault> {
        if self.is_broken {
            return Err(ActFault::Reopen);
        }
        self.station.book_by(query, sink)
    }

    fn messages_by<S: Sink<Message>>(
        &mut self,
        query: &MessageQuery,
        sink: &mut S,
    ) -> Result<(), ActFault> {
        if self.is_broken {
            return Err(ActFault::Reopen);
        }
        self.station.messages_by(query, sink)
    }

    fn messages_about<S: Sink<Message>>(
        &mut self,
        awb: &Awb,
        sink: &mut S,
    ) -> Result<(), ActFault> {
        if self.is_broken {
            return Err(ActFault::Reopen);
        }
        self.station.messages_about(awb, sink)
    }

    fn trail_by<S: Sink<TrailRow>>(
        &mut self,
        query: &TrailQuery,
        sink: &mut S,
    ) -> Result<(), ActFault> {
        if self.is_broken {
            return Err(ActFault::Reopen);
        }
        self.station.trail_by(query, sink)
    }
}
