//! Laws about the lives of a file.

ghost use Rattle.std.specs.Prelude.{◌≡◌, false, Err, ◌↔◌, ℕ, List, Bool, true, Result};
ghost use Rattle.station_tables.specs.Common.{state, HasCleanDisk, Acts, Breaks, FindsOnly, IfWorks, Leaves, Reopens, Held, AllByRecursion, AreInputs, State, IsLawfulState, opening};
ghost use Rattle.station_tables.specs.Attached.{connection_in};
ghost use Rattle.station_tables.specs.Called.{HasReleased, GoesOn, HasFound};
ghost use Rattle.station_tables.specs.declared.station.Station.{Station as Kept};
ghost use Rattle.station_tables.specs.Lives.{Call, Desk, DoAll, CallsActOnce, Life, AreLives, IsAfterLife, IsAfterLives, migration};

use crate::attaching::AttachFault;
use agent_stock::{Holder, StockRun};
use awb_number::Awb;
use sqlite::{Alter, Connection};
use station_core::laws::{retry_law, step_law};
use station_core::{
    ActFault, AnnouncedRow, BookQuery, BookRow, ExpectedQuery, ExpectedRow, FlightRow, Input,
    IrregularRow, Keeper, KeptReply, Key, Message, MessageQuery, Reply, ShedRow, Sink, Summary,
    TrailQuery, TrailRow, Waybill,
};
use station_days::Moment;
use station_engine::StoredStation;
use station_rows::Rows;
use table_state::TableState;

/// A station over the tables of a `sqlite` connection. It takes every input.
///
/// An accepted input is one transaction. A refused or repeated one writes nothing. `act` returns
/// `Memory` before its first call of the database, when nothing has changed. If a call fails, or
/// memory runs out later, it returns `Store`: the file then has the state before the input or after
/// it, and `act` and the readers return `Reopen` from then on. A reader's `Store` changes nothing.
#[derive(Drop)]
pub struct Station<S: Alter> {
    stored: StoredStation<TableState<Rows<S>>>,
}

impl<S: Alter> Station<S> {
    /// Returns a station over a keeper in tables.
    pub(crate) fn over(stored: StoredStation<TableState<Rows<S>>>) -> Station<S>
        ensures { result ≡ record { stored = stored } }
    {
        Station { stored }
    }

    /// Acts on one input at a moment, as a `Keeper` does. Only a disk that fails ends its premise.
    pub(crate) fn act_on(&mut self, input: &Input<'_>, at: Moment) -> Result<Reply, ActFault>
        ensures reopen { Reopens ⟦<Station<S> as Keeper>⟧.keeping self.old self.new result }
        ensures breaks { ⟦<Station<S> as Keeper>⟧.keeping.is_broken self.old ≡ false → Breaks result
            (⟦<Station<S> as Keeper>⟧.keeping.is_broken self.new) }

        // Memory runs out before the first call of the database, and nothing has changed.
        ensures memory { result ≡ Err ActFault.Memory → self.new ≡ self.old }
        ensures clean { HasCleanDisk (state S.Store (connection_in self.new))
            → HasCleanDisk (state S.Store (connection_in self.old)) }
        ensures still { ⟦<Station<S> as Keeper>⟧.keeping.is_sound self.old → HasCleanDisk
            (state S.Store (connection_in self.new)) → ⟦<Station<S> as Keeper>⟧.keeping.is_sound
            self.new }
        ensures sound { ⟦<Station<S> as Keeper>⟧.keeping.is_sound self.new
            → ⟦<Station<S> as Keeper>⟧.keeping.is_sound self.old }
        ensures acts { IfWorks ⟦<Station<S> as Keeper>⟧.keeping self.old self.new
            (λ s. Acts s input.now at result (⟦<Station<S> as Keeper>⟧.keeping.keeps self.new)) }
        ensures leaves { IfWorks ⟦<Station<S> as Keeper>⟧.keeping self.old self.new (λ s. FindsOnly
            ⟦<Station<S> as Keeper>⟧.keeping self.new (Leaves s input.now at result)) }
    {
        self.stored.act_on(input, at)
    }

    /// Returns the connection, whatever its state.
    pub fn release(self) -> Connection<S>
        ensures { HasReleased ⟦<Station<S> as Keeper>⟧.keeping self result }
    {
        let Station { stored } = self;
        stored.into_store().release()
    }
}

impl<S: Alter> Keeper for Station<S> {
    ghost use Rattle.station_core.specs.Keeping.{around};
    ghost use Rattle.station_engine.specs.Serving.{found_is};
    ghost use Rattle.table_state.specs.Shown.{finds_what_it_shows};

    ghost keeping = { around (λ k. k.stored)
        ⟦<StoredStation<TableState<Rows<S>>> as Keeper>⟧.keeping };

    ghost settled = { λ k s keeps sound found finds. found_is _ s keeps.0
        (λ f left. finds_what_it_shows _ s (keeps.1 sound).holds f left) found finds };

    ghost lawful = { λ k s sound finds. finds.1 };

    fn act(&mut self, input: &Input<'_>, at: Moment) -> Result<Reply, ActFault> {
        self.stored.act(input, at)
    }

    fn holder(&mut self, number: &Awb) -> Result<Option<Holder>, ActFault> {
        self.stored.holder(number)
    }

    fn waybill(&mut self, number: &Awb) -> Result<Option<Waybill>, ActFault> {
        self.stored.waybill(number)
    }

    fn kept_key(&mut self, key: &Key) -> Result<Option<KeptReply>, ActFault> {
        self.stored.kept_key(key)
    }

    fn summary(&mut self) -> Result<Summary, ActFault> {
        self.stored.summary()
    }

    fn stock<K: Sink<StockRun>>(&mut self, sink: &mut K) -> Result<(), ActFault> {
        self.stored.stock(sink)
    }

    fn announced<K: Sink<AnnouncedRow>>(&mut self, sink: &mut K) -> Result<(), ActFault> {
        self.stored.announced(sink)
    }

    fn shed<K: Sink<ShedRow>>(&mut self, sink: &mut K) -> Result<(), ActFault> {
        self.stored.shed(sink)
    }

    fn flights<K: Sink<FlightRow>>(&mut self, sink: &mut K) -> Result<(), ActFault> {
        self.stored.flights(sink)
    }

    fn expected_by<K: Sink<ExpectedRow>>(
        &mut self,
        query: &ExpectedQuery,
        sink: &mut K,
    ) -> Result<(), ActFault> {
        self.stored.expected_by(query, sink)
    }

    fn irregular<K: Sink<IrregularRow>>(&mut self, sink: &mut K) -> Result<(), ActFault> {
        self.stored.irregular(sink)
    }

    fn book_by<K: Sink<BookRow>>(
        &mut self,
        query: &BookQuery,
        sink: &mut K,
    ) -> Result<(), ActFault> {
        self.stored.book_by(query, sink)
    }

    fn messages_by<K: Sink<Message>>(
        &mut self,
        query: &MessageQuery,
        sink: &mut K,
    ) -> Result<(), ActFault> {
        self.stored.messages_by(query, sink)
    }

    fn messages_about<K: Sink<Message>>(
        &mut self,
        awb: &Awb,
        sink: &mut K,
    ) -> Result<(), ActFault> {
        self.stored.messages_about(awb, sink)
    }

    fn trail_by<K: Sink<TrailRow>>(
        &mut self,
        query: &TrailQuery,
        sink: &mut K,
    ) -> Result<(), ActFault> {
        self.stored.trail_by(query, sink)
    }
}

/// Starting from any lawful state (a new station, an opened file or an upgraded one), after any
/// number of lives, each of which begins with the state that its opening found, the last opening
/// finds the state after all answered inputs and at most one more for each life that ended with a
/// fault of the store.
pub fn lives_law()
    ensures lawful { (first : State) (lives : List Life) (found : State) → IsLawfulState first
        → AllByRecursion (λ (life : Life). AreInputs life.inputs) lives
        → AreLives first lives found → IsAfterLives first lives found }
    ensures new { (here : List ℕ) (lives : List Life) (found : State)
        → AllByRecursion (λ (life : Life). AreInputs life.inputs) lives
        → AreLives (opening here) lives found → IsAfterLives (opening here) lives found }
{
    step_law();
}

/// An upgrade keeps the state, so it may come anywhere between the lives of a file.
pub fn migration_law()
    ensures { (s found : State) → IsAfterLife s migration found ↔ (found ≡ s) }
{}

/// Whatever is called, answered, cut off and repeated on a working station, each accepted input
/// acts once, starting from a new station, an opened file or an upgraded one.
pub fn calls_law()
    ensures { (start : State) (calls : List Call) (new : Desk)
        → DoAll (record { state = start; works = true }) calls new
        → CallsActOnce start calls new.state }
{
    retry_law();
}

/// The next program goes on: a station opened over a crash state of one that returned its
/// connection has a state that reopening the first one may find.
pub fn next_call_law<S: Alter>()
    ensures { (last : Kept S S.Store) (conn other : Held S)
        (opened : Result (Kept S S.Store) (Held S × AttachFault))
        → ⟦<Station<S> as Keeper>⟧.keeping.is_sound last → HasReleased
        ⟦<Station<S> as Keeper>⟧.keeping last conn → HasCleanDisk (state S.Store conn)
        → (state S.Store conn).may_leave (state S.Store other).now.trees → HasFound S.Store
        ⟦<Station<S> as Keeper>⟧.keeping other opened → GoesOn S.Store
        ⟦<Station<S> as Keeper>⟧.keeping last opened }
{}
