ghost use Rattle.std.specs.Prelude.{◌≡◌, true, false, Err, Option, IfOk, IfErr};
ghost use Rattle.station_engine.specs.Common.{Acts, Breaks, FindsOnly, IfWorks, KeepsPremise, Leaves, Reopens, State, IsLawfulState, at_rest};
ghost use Rattle.station_engine.specs.Serving.{Finds, station_over};

use crate::acting::{request_of, serve};
use agent_stock::{Holder, StockRun};
use awb_number::Awb;
use state_store::{StateStore, expected_rows, flight_rows, irregular_rows, shed_rows, waybill_in};
use station_core::{
    ActFault, AnnouncedRow, Answer, BookQuery, BookRow, ExpectedQuery, ExpectedRow, FlightRow,
    Input, IrregularRow, Keeper, KeptReply, Key, Message, MessageQuery, Reply, ShedRow, Sink,
    Summary, TrailQuery, TrailRow, Waybill, hand_out,
};
use station_days::Moment;
use std::alloc::Global;

/// A station over a store of its state. It takes every input.
///
/// An accepted input is one transaction; a refused or known one has none. After `Store` the station
/// returns `Reopen`: the store then has the state before the input or after it. A reader's `Store`
/// changes nothing.
#[derive(Drop)]
pub struct StoredStation<S: StateStore> {
    alloc: Global,
    store: S,
    // True once a call of the store failed: every call returns `Reopen`.
    broken: bool,
}

impl<S: StateStore> StoredStation<S> {
    /// Returns a station over a store that shows a lawful state, outside a transaction.
    pub fn over(alloc: Global, store: S) -> StoredStation<S>
        ensures keeps { (s : State) → IsLawfulState s → S.storing.shows store (at_rest s)
            → ⟦<StoredStation<S> as Keeper>⟧.keeping.keeps result s }
        ensures sound { ⟦<StoredStation<S> as Keeper>⟧.keeping.is_sound result
            → S.storing.is_sound store }
        ensures works { ⟦<StoredStation<S> as Keeper>⟧.keeping.is_broken result ≡ false }
        ensures same { result.store ≡ store }
    {
        StoredStation {
            alloc,
            store,
            broken: false,
        }
    }

    /// Acts on one input at a moment, as a `Keeper` does. Only a disk that fails ends the store's
    /// soundness.
    pub fn act_on(&mut self, input: &Input<'_>, at: Moment) -> Result<Reply, ActFault>
        ensures reopen { Reopens ⟦<StoredStation<S> as Keeper>⟧.keeping self.old self.new result }
        ensures breaks { self.old.broken ≡ false → Breaks result self.new.broken }

        // Memory runs out before the first call of the store, and nothing has changed.
        ensures memory { result ≡ Err ActFault.Memory → self.new ≡ self.old }
        ensures premise { KeepsPremise S.storing.is_clean S.storing.is_sound self.old.store
            self.new.store }
        ensures acts { IfWorks ⟦<StoredStation<S> as Keeper>⟧.keeping self.old self.new (λ s.
            Acts s input.now at result (⟦<StoredStation<S> as Keeper>⟧.keeping.keeps self.new)) }
        ensures leaves { IfWorks ⟦<StoredStation<S> as Keeper>⟧.keeping self.old self.new (λ s.
            FindsOnly ⟦<StoredStation<S> as Keeper>⟧.keeping self.new
            (Leaves s input.now at result)) }
    {
        if self.broken {
            return Err(ActFault::Reopen);
        }
        let Ok(request) = request_of(self.alloc, input) else {
            return Err(ActFault::Memory);
        };
        // Cleared when the store has answered for the whole input.
        self.broken = true;
        match serve(self.alloc, &mut self.store, input, &request, at) {
            Err(_) => Err(ActFault::Store),
            Ok(answer) => {
                self.broken = false;
                match answer {
                    Answer::Done(reply) => Ok(reply),
                    Answer::Refused(refusal) => Err(ActFault::Refused(refusal)),
                }
            }
        }
    }

    /// The store, whatever its state.
    pub fn store(&self) -> &S
        ensures { result.now ≡ self.now.store }
    {
        &self.store
    }

    /// Returns the store, whatever its state.
    pub fn into_store(self) -> S
        ensures same { result ≡ self.store }
        ensures shows { (s : State) → ⟦<StoredStation<S> as Keeper>⟧.keeping.keeps self s
            → S.storing.shows result (at_rest s) }
        ensures sound { S.storing.is_sound result
            → ⟦<StoredStation<S> as Keeper>⟧.keeping.is_sound self }
        ensures leaves { (found : Option State) → Finds (S.storing.may_find result) found
            → ⟦<StoredStation<S> as Keeper>⟧.keeping.may_find self found }
    {
        let StoredStation {
            alloc: _,
            store,
            broken: _,
        } = self;
        store
    }
}

impl<S: StateStore> Keeper for StoredStation<S> {
    ghost use Rattle.station_engine.specs.Serving.{found_is};

    ghost keeping = { station_over (λ k. k.store) (λ k. k.broken) S.storing };

    ghost settled = { λ k s keeps sound found finds. found_is (S.storing.may_find k.store) s keeps.0
        (S.settled k.store s keeps.1 sound) found finds };

    ghost lawful = { λ k s sound finds. finds.1 };

    fn act(&mut self, input: &Input<'_>, at: Moment) -> Result<Reply, ActFault> {
        self.act_on(input, at)
    }

    fn holder(&mut self, number: &Awb) -> Result<Option<Holder>, ActFault> {
        if self.broken {
            return Err(ActFault::Reopen);
        }
        self.store.holder(number).or(Err(ActFault::Store))
    }

    fn waybill(&mut self, number: &Awb) -> Result<Option<Waybill>, ActFault> {
        if self.broken {
            return Err(ActFault::Reopen);
        }
        waybill_in(&mut self.store, number).or(Err(ActFault::Store))
    }

    fn kept_key(&mut self, key: &Key) -> Result<Option<KeptReply>, ActFault> {
        if self.broken {
            return Err(ActFault::Reopen);
        }
        self.store.kept_key(key).or(Err(ActFault::Store))
    }

    fn summary(&mut self) -> Result<Summary, ActFault> {
        if self.broken {
            return Err(ActFault::Reopen);
        }
        Ok(Summary {
            here: self.store.here(),
            sizes: self.store.sizes(),
            confirmed: self.store.confirmed(),
        })
    }

    #[tactic(auto, using(crate::proofs::Reading::reads_only))]
    fn stock<K: Sink<StockRun>>(&mut self, sink: &mut K) -> Result<(), ActFault> {
        if self.broken {
            return Err(ActFault::Reopen);
        }
        let rows = self.store.runs().or(Err(ActFault::Store))?;
        hand_out(sink, rows);
        Ok(())
    }

    #[tactic(auto, using(crate::proofs::Reading::reads_only))]
    fn announced<K: Sink<AnnouncedRow>>(&mut self, sink: &mut K) -> Result<(), ActFault> {
        if self.broken {
            return Err(ActFault::Reopen);
        }
        let rows = self.store.announced().or(Err(ActFault::Store))?;
        hand_out(sink, rows);
        Ok(())
    }

    #[tactic(auto, using(crate::proofs::Reading::reads_only))]
    fn shed<K: Sink<ShedRow>>(&mut self, sink: &mut K) -> Result<(), ActFault> {
        if self.broken {
            return Err(ActFault::Reopen);
        }
        let rows = shed_rows(self.alloc, &mut self.store).or(Err(ActFault::Store))?;
        hand_out(sink, rows);
        Ok(())
    }

    #[tactic(auto, using(crate::proofs::Reading::reads_only))]
    fn flights<K: Sink<FlightRow>>(&mut self, sink: &mut K) -> Result<(), ActFault> {
        if self.broken {
            return Err(ActFault::Reopen);
        }
        let rows = flight_rows(self.alloc, &mut self.store).or(Err(ActFault::Store))?;
        hand_out(sink, rows);
        Ok(())
    }

    #[tactic(auto, using(crate::proofs::Reading::reads_only))]
    fn expected_by<K: Sink<ExpectedRow>>(
        &mut self,
        query: &ExpectedQuery,
        sink: &mut K,
    ) -> Result<(), ActFault> {
        if self.broken {
            return Err(ActFault::Reopen);
        }
        let rows = expected_rows(self.alloc, &mut self.store, query).or(Err(ActFault::Store))?;
        hand_out(sink, rows);
        Ok(())
    }

    #[tactic(auto, using(crate::proofs::Reading::reads_only))]
    fn irregular<K: Sink<IrregularRow>>(&mut self, sink: &mut K) -> Result<(), ActFault> {
        if self.broken {
            return Err(ActFault::Reopen);
        }
        let rows = irregular_rows(self.alloc, &mut self.store).or(Err(ActFault::Store))?;
        hand_out(sink, rows);
        Ok(())
    }

    #[tactic(auto, using(crate::proofs::Reading::hands_out))]
    fn book_by<K: Sink<BookRow>>(
        &mut self,
        query: &BookQuery,
        sink: &mut K,
    ) -> Result<(), ActFault> {
        if self.broken {
            return Err(ActFault::Reopen);
        }
        self.store.book_by(query, sink).or(Err(ActFault::Store))
    }

    #[tactic(auto, using(crate::proofs::Reading::hands_out))]
    fn messages_by<K: Sink<Message>>(
        &mut self,
        query: &MessageQuery,
        sink: &mut K,
    ) -> Result<(), ActFault> {
        if self.broken {
            return Err(ActFault::Reopen);
        }
        self.store.messages_by(query, sink).or(Err(ActFault::Store))
    }

    #[tactic(auto, using(crate::proofs::Reading::hands_out))]
    fn messages_about<K: Sink<Message>>(
        &mut self,
        awb: &Awb,
        sink: &mut K,
    ) -> Result<(), ActFault> {
        if self.broken {
            return Err(ActFault::Reopen);
        }
        self.store
            .messages_about(awb, sink)
            .or(Err(ActFault::Store))
    }

    #[tactic(auto, using(crate::proofs::Reading::hands_out))]
    fn trail_by<K: Sink<TrailRow>>(
        &mut self,
        query: &TrailQuery,
        sink: &mut K,
    ) -> Result<(), ActFault> {
        if self.broken {
            return Err(ActFault::Reopen);
        }
        self.store.trail_by(query, sink).or(Err(ActFault::Store))
    }
}
