use crate::viewing::WaybillQuery;
use agent_stock::{Holder, Order, StockFault, StockRun};
use awb_number::Awb;
use imp_fields::Airport;
use row_sinks::StoreFault;
use shipment_machine::{
    Amount, Balances, Change, Declared, Expected, FlightDate, Move, Outbound, Part,
};
use station_core::{
    AnnouncedRow, BookQuery, BookRow, Expectation, ExpectedQuery, KeptReply, Key, Load, Message,
    MessageQuery, NotedFlight, Sink, Sizes, TrailQuery, TrailRow, WaybillBalances,
};

/// The state of a station in a store, with short calls that read and change it.
///
/// A call's contract starts from what the store showed before. After a fault inside a transaction,
/// there is no guarantee about what the store shows; a reader's fault outside a transaction changes
/// nothing.
pub trait StateStore {
    ghost use Rattle.std.specs.Prelude.{◌≡◌, ◌∷◌, [], true, length, Option, Some, None, OnOk, IfErr, is_some};
    ghost use Rattle.std.specs.Option.{option_map};
    ghost use Rattle.agent_stock.specs.Stock.{AreStockRuns, order_refusal, OnRefused, RefusesBy};
    ghost use Rattle.shipment_machine.specs.Book.{balances_of, built, has_moves as is_moved, waybills_on};
    ghost use Rattle.shipment_machine.specs.Cargo.{written};
    ghost use Rattle.station_core.specs.Readers.{AreAnnounced, AreNoted, AreExpectations, expected_for, book_by, messages_about, messages_by, trail_by};
    ghost use Rattle.station_core.specs.Step.{State, has_room};
    ghost use Rattle.state_store.specs.Store.{Changes, Commits, HandsOut, Reads, ReadsAtRest, Says, Seen, Storing, Survives, at_rest, inside, waybills_for};
    ghost use Rattle.station_core.specs.Keeping.{IsRequest, kept_of, sizes_of, loads_on, on_cargo, with_moves, with_messages, with_key, with_text, with_order};

    /// Its state, whether its disk is clean and its storage sound, and the crash states.
    ghost storing: { Storing Self };

    /// Begins a transaction.
    fn begin(&mut self) -> Result<(), StoreFault>
        ensures begun { (s : State) → storing.shows self.old (at_rest s)
            → OnOk result (storing.shows self.new (inside s s)) }
        ensures survives { Survives storing self.old self.new };

    /// Commits the transaction.
    fn commit(&mut self) -> Result<(), StoreFault>
        ensures { Commits storing self.old self.new result (λ s. s) };

    /// Returns the entry under a key.
    fn kept_key(&mut self, key: &Key) -> Result<Option<KeptReply>, StoreFault>
        ensures { Reads storing self.old self.new result
            (λ s kept. option_map kept_of kept ≡ s.kept_keys key.now) };

    /// Returns the count of the telegram with this normal text, if it was taken.
    fn kept_text(&mut self, text: &[u8]) -> Result<Option<u32>, StoreFault>
        ensures { Reads storing self.old self.new result
            (λ s kept. kept ≡ s.kept_texts text.now) };

    /// Returns the declaration of a waybill.
    fn declared(&mut self, awb: &Awb) -> Result<Option<Declared>, StoreFault>
        ensures { Reads storing self.old self.new result
            (λ s declared. declared ≡ s.cargo.declared awb.now) };

    /// Returns the holder of a number.
    fn holder(&mut self, awb: &Awb) -> Result<Option<Holder>, StoreFault>
        ensures { Reads storing self.old self.new result
            (λ s holder. holder ≡ s.cargo.holders awb.now) };

    /// Returns whether the book has a move of a waybill.
    fn has_moves(&mut self, awb: &Awb) -> Result<bool, StoreFault>
        ensures { Reads storing self.old self.new result
            (λ s moved. moved ≡ is_moved s.cargo.book awb.now) };

    /// Returns the balances of a waybill.
    fn balances(&mut self, awb: &Awb) -> Result<Balances, StoreFault>
        ensures { Reads storing self.old self.new result
            (λ s balances. balances ≡ balances_of s.cargo.book awb.now) };

    /// Returns the amount of a waybill built on a flight.
    fn load(&mut self, awb: &Awb, flight: &FlightDate) -> Result<Amount, StoreFault>
        ensures { Reads storing self.old self.new result
            (λ s load. load ≡ built s.cargo.book awb.now flight.now) };

    /// Returns the waybills built on a flight, ascending, each with its load.
    fn aboard(&mut self, flight: &FlightDate) -> Result<Vec<Load>, StoreFault>
        ensures { Reads storing self.old self.new result
            (λ s loads. loads.items ≡ loads_on s.cargo.book flight.now) };

    /// Returns the number of waybills built on a flight. Building a waybill needs only this number;
    /// a departure reads each load with `aboard`.
    fn waybills_on(&mut self, flight: &FlightDate) -> Result<usize, StoreFault>
        ensures { Reads storing self.old self.new result
            (λ s number. number ≡ length (waybills_on s.cargo.book flight.now)) };

    /// Returns the note of an outbound flight.
    fn outbound(&mut self, flight: &FlightDate) -> Result<Option<Outbound>, StoreFault>
        ensures { Reads storing self.old self.new result
            (λ s outbound. outbound ≡ s.cargo.flights flight.now) };

    /// Returns the expectation of a waybill on a flight.
    fn expected(&mut self, flight: &FlightDate, awb: &Awb) -> Result<Option<Expected>, StoreFault>
        ensures { Reads storing self.old self.new result
            (λ s expected. expected ≡ s.cargo.expected flight.now awb.now) };

    /// Returns whether a part of a manifest was taken.
    fn has_part(&mut self, part: &Part) -> Result<bool, StoreFault>
        ensures { Reads storing self.old self.new result
            (λ s taken. taken ≡ is_some (s.cargo.parts part.now)) };

    /// The station's airport.
    fn here(&self) -> Airport
        ensures { Says storing self.now (λ s. result ≡ s.cargo.here) };

    /// The number of rows in each numbered list.
    fn sizes(&self) -> Sizes
        ensures { Says storing self.now (λ s. result ≡ sizes_of s.cargo) };

    /// The number of the last confirmed message.
    fn confirmed(&self) -> u32
        ensures { Says storing self.now (λ s. result ≡ s.cargo.confirmed) };

    /// Appends a move to the book, inside a transaction.
    fn add_move(&mut self, movement: &Move) -> Result<(), StoreFault>
        ensures { Changes storing self.old self.new result (with_moves (movement.now ∷ [])) };

    /// Writes a row, inside a transaction; `text` is that of the current telegram.
    fn write(&mut self, text: &[u8], change: &Change<'_>) -> Result<(), StoreFault>
        ensures { Changes storing self.old self.new result
            (on_cargo (written text.now change.now)) };

    /// Appends a message to the outbox, inside a transaction.
    fn add_message(&mut self, text: &[u8]) -> Result<(), StoreFault>
        ensures { Changes storing self.old self.new result (with_messages (text.now ∷ [])) };

    /// Stores the text of a command accepted under a key, and its count, inside a transaction.
    fn keep_key(&mut self, key: &Key, request: &str, count: u32) -> Result<(), StoreFault>
        ensures done { (before s : State) → storing.shows self.old (inside before s)
            → IsRequest request.now → OnOk result (storing.shows self.new (inside before
            (with_key key.now (record { request = request.now; count = count }) s))) }
        ensures survives { Survives storing self.old self.new };

    /// Stores the count for a telegram with this normal text, inside a transaction.
    fn keep_text(&mut self, text: &[u8], count: u32) -> Result<(), StoreFault>
        ensures { Changes storing self.old self.new result (with_text text.now count) };

    /// Carries out an order on the stock in a transaction that it begins. If the order is refused,
    /// no transaction is begun.
    fn carry_out_order(&mut self, order: &Order) -> Result<(), StockFault<StoreFault>>
        ensures accepted { (s : State) → storing.shows self.old (at_rest s)
            → storing.is_sound self.new
            → OnOk result (order_refusal s.cargo.holders order.now ≡ None) }
        ensures done { (s : State) → storing.shows self.old (at_rest s)
            → OnOk result (storing.shows self.new (inside s (with_order order.now s))) }
        ensures refused { (s : State) → storing.shows self.old (at_rest s)
            → storing.is_sound self.new
            → IfErr result (RefusesBy (order_refusal s.cargo.holders order.now)) }
        ensures same { (s : State) → storing.shows self.old (at_rest s)
            → OnRefused result (storing.shows self.new (at_rest s)) }
        ensures survives { Survives storing self.old self.new };

    /// Returns the stock as maximal runs of one holder, ascending.
    fn runs(&mut self) -> Result<Vec<StockRun>, StoreFault>
        ensures { ReadsAtRest storing self.old self.new result
            (λ s runs. AreStockRuns s.cargo.holders runs.items) };

    /// Returns the queried waybills, ascending, each with its balances.
    fn waybills(&mut self, query: WaybillQuery) -> Result<Vec<WaybillBalances>, StoreFault>
        ensures { ReadsAtRest storing self.old self.new result
            (λ s rows. rows.items ≡ waybills_for query s.cargo.book) };

    /// Returns the declared waybills of which nothing has come in, ascending.
    fn announced(&mut self) -> Result<Vec<AnnouncedRow>, StoreFault>
        ensures { ReadsAtRest storing self.old self.new result
            (λ s rows. AreAnnounced s.cargo rows.items) };

    /// Returns the noted flights, by their written form and then by day.
    fn noted(&mut self) -> Result<Vec<NotedFlight>, StoreFault>
        ensures { ReadsAtRest storing self.old self.new result
            (λ s rows. AreNoted s.cargo.flights rows.items) };

    /// Returns the queried expectations, by flight as in `noted` and then by waybill.
    fn expectations(&mut self, query: &ExpectedQuery) -> Result<Vec<Expectation>, StoreFault>
        ensures { ReadsAtRest storing self.old self.new result
            (λ s rows. AreExpectations (expected_for query.now s.cargo.expected) rows.items) };

    /// Hands out the queried movements, in order, as they are read, until the sink stops.
    fn book_by<K: Sink<BookRow>>(
        &mut self,
        query: &BookQuery,
        sink: &mut K,
    ) -> Result<(), StoreFault>
        ensures { HandsOut storing self.old self.new result K.takes
            (λ s. book_by query.now s.cargo) sink.old sink.new };

    /// Hands out the queried messages, in order, as they are read, until the sink stops.
    fn messages_by<K: Sink<Message>>(
        &mut self,
        query: &MessageQuery,
        sink: &mut K,
    ) -> Result<(), StoreFault>
        ensures { HandsOut storing self.old self.new result K.takes
            (λ s. messages_by query.now s.cargo) sink.old sink.new };

    /// Hands out the status messages of a waybill, in order, until the sink stops.
    fn messages_about<K: Sink<Message>>(
        &mut self,
        awb: &Awb,
        sink: &mut K,
    ) -> Result<(), StoreFault>
        ensures { HandsOut storing self.old self.new result K.takes
            (λ s. messages_about awb.now s.cargo) sink.old sink.new };

    /// Hands out the queried lines of the trail, in order, as they are read, until the sink stops.
    fn trail_by<K: Sink<TrailRow>>(
        &mut self,
        query: &TrailQuery,
        sink: &mut K,
    ) -> Result<(), StoreFault>
        ensures { HandsOut storing self.old self.new result K.takes
            (λ s. trail_by query.now s.cargo) sink.old sink.new };

    /// Reopening finds what it shows between two transactions.
    ghost settled: { (k : Self) (s : State) → storing.shows k (at_rest s) → storing.is_sound k
        → (found : Option State) → storing.may_find k found → found ≡ Some s };

    /// All rows that it shows can be numbered.
    ghost numbered: { (k : Self) (x : Seen) → storing.shows k x → storing.is_sound k
        → has_room x.now.cargo ≡ true };
}
