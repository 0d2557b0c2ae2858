ghost use Rattle.std.specs.Prelude.{◌≡◌, false, Option, Some};

use crate::answer::{ActFault, Input, Reply};
use crate::key::Key;
use crate::rows::{
    AnnouncedRow, BookQuery, BookRow, ExpectedQuery, ExpectedRow, FlightRow, IrregularRow, Message,
    MessageQuery, ShedRow, TrailQuery, TrailRow, Waybill,
};
use crate::stored::{KeptReply, Summary};
use agent_stock::{Holder, StockRun};
use awb_number::Awb;
use row_sinks::Sink;
use station_days::Moment;

/// The keeper of a station's state.
///
/// Its readers change nothing. Readers of rows hand them to a sink in order: all of them, or a
/// prefix if the sink stops or after a fault.
pub trait Keeper {
    ghost use Rattle.std.specs.Option.{option_map};
    ghost use Rattle.agent_stock.specs.Stock.{AreStockRuns};
    ghost use Rattle.station_core.specs.Step.{State, IsLawfulState};
    ghost use Rattle.station_core.specs.Keeping.{Acts, Breaks, FindsOnly, HandsOut, IfWorks, Keeping, KeepsSound, Leaves, Reads, Reopens, kept_of, summary_of};
    ghost use Rattle.station_core.specs.Readers.{waybill_of, AreAnnounced, shed_rows, AreFlightRows, AreExpectedBy, AreExpectedRows, irregular_rows, book_rows, book_by, messages_about, messages_by, pending_messages, trail_rows, trail_by};

    /// The keeper as contracts see it: the state that it keeps, whether its disk and its storage
    /// hold what they confirmed, whether it is broken, and the states that reopening may find.
    ghost keeping: { Keeping Self };

    /// Acts on one input at a moment.
    fn act(&mut self, input: &Input<'_>, at: Moment) -> Result<Reply, ActFault>
        // After a failure of the store, nothing happens until the station is opened again.
        ensures reopen { Reopens keeping self.old self.new result }
        ensures breaks { keeping.is_broken self.old ≡ false → Breaks result
            (keeping.is_broken self.new) }
        ensures premise { KeepsSound keeping self.old self.new }

        // The answer and the state are those of the step.
        ensures acts { IfWorks keeping self.old self.new
            (λ s. Acts s input.now at result (keeping.keeps self.new)) }
        ensures leaves { IfWorks keeping self.old self.new
            (λ s. FindsOnly keeping self.new (Leaves s input.now at result)) };

    /// Returns the holder of a number.
    fn holder(&mut self, number: &Awb) -> Result<Option<Holder>, ActFault>
        ensures { Reads keeping self.old self.new result
            (λ s holder. holder ≡ s.cargo.holders number.now) };

    /// Returns the record of a waybill.
    fn waybill(&mut self, number: &Awb) -> Result<Option<Waybill>, ActFault>
        ensures { Reads keeping self.old self.new result
            (λ s waybill. waybill ≡ waybill_of s.cargo number.now) };

    /// Returns the command that was accepted under a key, and the count of its reply.
    fn kept_key(&mut self, key: &Key) -> Result<Option<KeptReply>, ActFault>
        ensures { Reads keeping self.old self.new result
            (λ s kept. option_map kept_of kept ≡ s.kept_keys key.now) };

    /// Returns the station at a glance.
    fn summary(&mut self) -> Result<Summary, ActFault>
        ensures { Reads keeping self.old self.new result
            (λ s summary. summary ≡ summary_of s.cargo) };

    /// Hands out the stock as maximal runs of one holder, ascending.
    fn stock<S: Sink<StockRun>>(&mut self, sink: &mut S) -> Result<(), ActFault>
        ensures { HandsOut keeping self.old self.new result S.takes
            (λ s rows. AreStockRuns s.holders rows) sink.old sink.new };

    /// Hands out the declared waybills of which nothing has come in, ascending.
    fn announced<S: Sink<AnnouncedRow>>(&mut self, sink: &mut S) -> Result<(), ActFault>
        ensures { HandsOut keeping self.old self.new result S.takes (λ s rows. AreAnnounced s rows)
            sink.old sink.new };

    /// Hands out the waybills with pieces in store, ascending.
    fn shed<S: Sink<ShedRow>>(&mut self, sink: &mut S) -> Result<(), ActFault>
        ensures { HandsOut keeping self.old self.new result S.takes (λ s rows. rows ≡ shed_rows s)
            sink.old sink.new };

    /// Hands out the noted flights with their loads, ordered by written form and then by day.
    fn flights<S: Sink<FlightRow>>(&mut self, sink: &mut S) -> Result<(), ActFault>
        ensures { HandsOut keeping self.old self.new result S.takes (λ s rows. AreFlightRows s rows)
            sink.old sink.new };

    /// Hands out all expectations, ordered by flight as in `flights` and then by waybill.
    fn expected<S: Sink<ExpectedRow>>(&mut self, sink: &mut S) -> Result<(), ActFault>
        ensures { HandsOut keeping self.old self.new result S.takes
            (λ s rows. AreExpectedRows s rows) sink.old sink.new }
    {
        self.expected_by(&ExpectedQuery::All, sink)
    }

    /// Hands out the queried expectations, in the same order.
    fn expected_by<S: Sink<ExpectedRow>>(
        &mut self,
        query: &ExpectedQuery,
        sink: &mut S,
    ) -> Result<(), ActFault>
        ensures { HandsOut keeping self.old self.new result S.takes
            (λ s rows. AreExpectedBy query.now s rows) sink.old sink.new };

    /// Hands out the waybills with missing or found pieces, ascending.
    fn irregular<S: Sink<IrregularRow>>(&mut self, sink: &mut S) -> Result<(), ActFault>
        ensures { HandsOut keeping self.old self.new result S.takes
            (λ s rows. rows ≡ irregular_rows s) sink.old sink.new };

    /// Hands out the movement book, in order.
    fn book<S: Sink<BookRow>>(&mut self, sink: &mut S) -> Result<(), ActFault>
        ensures { HandsOut keeping self.old self.new result S.takes (λ s rows. rows ≡ book_rows s)
            sink.old sink.new }
    {
        self.book_by(&BookQuery::All, sink)
    }

    /// Hands out the queried movements, in order, with their numbers in the book.
    fn book_by<S: Sink<BookRow>>(&mut self, query: &BookQuery, sink: &mut S) -> Result<(), ActFault>
        ensures { HandsOut keeping self.old self.new result S.takes
            (λ s rows. rows ≡ book_by query.now s) sink.old sink.new };

    /// Hands out the unconfirmed messages, in order.
    fn pending<S: Sink<Message>>(&mut self, sink: &mut S) -> Result<(), ActFault>
        ensures { HandsOut keeping self.old self.new result S.takes
            (λ s rows. rows ≡ pending_messages s) sink.old sink.new }
    {
        self.messages_by(&MessageQuery::Pending, sink)
    }

    /// Hands out the queried messages, in order.
    fn messages_by<S: Sink<Message>>(
        &mut self,
        query: &MessageQuery,
        sink: &mut S,
    ) -> Result<(), ActFault>
        ensures { HandsOut keeping self.old self.new result S.takes
            (λ s rows. rows ≡ messages_by query.now s) sink.old sink.new };

    /// Hands out the status messages of a waybill, confirmed or not, in order.
    fn messages_about<S: Sink<Message>>(&mut self, awb: &Awb, sink: &mut S) -> Result<(), ActFault>
        ensures { HandsOut keeping self.old self.new result S.takes
            (λ s rows. rows ≡ messages_about awb.now s) sink.old sink.new };

    /// Hands out the trail, in order.
    fn trail<S: Sink<TrailRow>>(&mut self, sink: &mut S) -> Result<(), ActFault>
        ensures { HandsOut keeping self.old self.new result S.takes (λ s rows. rows ≡ trail_rows s)
            sink.old sink.new }
    {
        self.trail_by(&TrailQuery::All, sink)
    }

    /// Hands out the queried lines of the trail, in order, with their numbers in the trail.
    fn trail_by<S: Sink<TrailRow>>(
        &mut self,
        query: &TrailQuery,
        sink: &mut S,
    ) -> Result<(), ActFault>
        ensures { HandsOut keeping self.old self.new result S.takes
            (λ s rows. rows ≡ trail_by query.now s) sink.old sink.new };

    /// Reopening finds the state that is kept.
    ghost settled: { (k : Self) (s : State) → keeping.keeps k s → keeping.is_sound k
        → (found : Option State) → keeping.may_find k found → found ≡ Some s };

    /// Each state that reopening may find is lawful.
    ghost lawful: { (k : Self) (s : State) → keeping.is_sound k → keeping.may_find k (Some s)
        → IsLawfulState s };
}
