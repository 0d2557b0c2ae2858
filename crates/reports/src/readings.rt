//! Readers of a keeper, for each report.
//! The command that was accepted under a key.

ghost use Rattle.std.specs.Prelude.{◌≡◌, ◌∷◌, [], false, IfErr, IfOk};
ghost use Rattle.reports.specs.Common.{IfSound, IsReadersFault, OnlyReads, Reopens, summary_of, AreStockRuns, AreAnnounced, shed_rows, AreFlightRows, AreExpectedBy, irregular_rows, book_by, messages_about, messages_by, trail_by, Reads, kept_of};
ghost use Rattle.reports.specs.Reports.{kept_row, kept_rows, one_line};

use agent_stock::StockRun;
use awb_number::Awb;
use station_core::{
    ActFault, AnnouncedRow, BookQuery, BookRow, ExpectedQuery, ExpectedRow, FlightRow,
    IrregularRow, Keeper, KeptReply, Key, Message, MessageQuery, RowText, ShedRow, Sink, Summary,
    TrailQuery, TrailRow, hand_out,
};
use std::alloc::{AllocError, Global};

/// Returns the station at a glance, as a list of one row.
fn summary_row<K: Keeper>(alloc: Global, keeper: &mut K) -> Result<Vec<Summary>, ActFault>
    ensures reopen { Reopens K.keeping keeper.old keeper.new result }
    ensures fault { K.keeping.is_broken keeper.old ≡ false → IfErr result
        (IsReadersFault K.keeping.may_fail) }
    ensures reads { OnlyReads K.keeping keeper.old keeper.new }
    ensures rows { IfSound K.keeping keeper.old keeper.new
        (λ s. IfOk result (λ rows. rows.items ≡ summary_of s.cargo ∷ [])) }
{
    let summary = keeper.summary()?;
    let mut rows = Vec::new(alloc);
    match rows.push(summary) {
        Ok(()) => Ok(rows),
        Err(_) => Err(ActFault::Memory),
    }
}

/// A reader of rows.
pub(crate) trait Reading<Row> {
    ghost use Rattle.std.specs.Prelude.{List};
    ghost use Rattle.station_core.specs.Keeping.{HandsOutOf};
    ghost use Rattle.station_core.specs.Step.{State};

    /// The relation of a state to its rows.
    ghost rows: { Self → State → List Row → Type 0 };

    /// Makes a keeper hand out the rows.
    fn hand_out<K: Keeper, S: Sink<Row>>(
        &self,
        keeper: &mut K,
        sink: &mut S,
    ) -> Result<(), ActFault>
        ensures { HandsOutOf K.keeping keeper.old keeper.new result S.takes (rows self.now) sink.old
            sink.new };
}

#[derive(Drop)]
pub(crate) struct StockReading;

impl Reading<StockRun> for StockReading {
    ghost rows = { λ reading s rows. AreStockRuns s.cargo.holders rows };

    fn hand_out<K: Keeper, S: Sink<StockRun>>(
        &self,
        keeper: &mut K,
        sink: &mut S,
    ) -> Result<(), ActFault> {
        keeper.stock(sink)
    }
}

#[derive(Drop)]
pub(crate) struct AnnouncedReading;

impl Reading<AnnouncedRow> for AnnouncedReading {
    ghost rows = { λ reading s rows. AreAnnounced s.cargo rows };

    fn hand_out<K: Keeper, S: Sink<AnnouncedRow>>(
        &self,
        keeper: &mut K,
        sink: &mut S,
    ) -> Result<(), ActFault> {
        keeper.announced(sink)
    }
}

#[derive(Drop)]
pub(crate) struct ShedReading;

impl Reading<ShedRow> for ShedReading {
    ghost rows = { λ reading s rows. rows ≡ shed_rows s.cargo };

    fn hand_out<K: Keeper, S: Sink<ShedRow>>(
        &self,
        keeper: &mut K,
        sink: &mut S,
    ) -> Result<(), ActFault> {
        keeper.shed(sink)
    }
}

#[derive(Drop)]
pub(crate) struct FlightReading;

impl Reading<FlightRow> for FlightReading {
    ghost rows = { λ reading s rows. AreFlightRows s.cargo rows };

    fn hand_out<K: Keeper, S: Sink<FlightRow>>(
        &self,
        keeper: &mut K,
        sink: &mut S,
    ) -> Result<(), ActFault> {
        keeper.flights(sink)
    }
}

impl Reading<ExpectedRow> for ExpectedQuery {
    ghost rows = { λ reading s rows. AreExpectedBy reading s.cargo rows };

    fn hand_out<K: Keeper, S: Sink<ExpectedRow>>(
        &self,
        keeper: &mut K,
        sink: &mut S,
    ) -> Result<(), ActFault> {
        keeper.expected_by(self, sink)
    }
}

/// The waybills with missing or found pieces.
#[derive(Drop)]
pub(crate) struct IrregularReading;

impl Reading<IrregularRow> for IrregularReading {
    ghost rows = { λ reading s rows. rows ≡ irregular_rows s.cargo };

    fn hand_out<K: Keeper, S: Sink<IrregularRow>>(
        &self,
        keeper: &mut K,
        sink: &mut S,
    ) -> Result<(), ActFault> {
        keeper.irregular(sink)
    }
}

impl Reading<BookRow> for BookQuery {
    ghost rows = { λ reading s rows. rows ≡ book_by reading s.cargo };

    fn hand_out<K: Keeper, S: Sink<BookRow>>(
        &self,
        keeper: &mut K,
        sink: &mut S,
    ) -> Result<(), ActFault> {
        keeper.book_by(self, sink)
    }
}

impl Reading<Message> for MessageQuery {
    ghost rows = { λ reading s rows. rows ≡ messages_by reading s.cargo };

    fn hand_out<K: Keeper, S: Sink<Message>>(
        &self,
        keeper: &mut K,
        sink: &mut S,
    ) -> Result<(), ActFault> {
        keeper.messages_by(self, sink)
    }
}

/// The status messages of a waybill.
#[derive(Drop)]
pub(crate) struct StatusReading {
    pub(crate) awb: Awb,
}

impl Reading<Message> for StatusReading {
    ghost rows = { λ reading s rows. rows ≡ messages_about reading.awb s.cargo };

    fn hand_out<K: Keeper, S: Sink<Message>>(
        &self,
        keeper: &mut K,
        sink: &mut S,
    ) -> Result<(), ActFault> {
        keeper.messages_about(&self.awb, sink)
    }
}

/// The station at a glance, as the only row.
#[derive(Drop)]
pub(crate) struct SummaryReading {
    pub(crate) alloc: Global,
}

impl Reading<Summary> for SummaryReading {
    ghost rows = { λ reading s rows. rows ≡ summary_of s.cargo ∷ [] };

    fn hand_out<K: Keeper, S: Sink<Summary>>(
        &self,
        keeper: &mut K,
        sink: &mut S,
    ) -> Result<(), ActFault> {
        match summary_row(self.alloc, keeper) {
            Ok(rows) => {
                hand_out(sink, rows);
                Ok(())
            }
            Err(fault) => Err(fault),
        }
    }
}

impl Reading<TrailRow> for TrailQuery {
    ghost rows = { λ reading s rows. rows ≡ trail_by reading s.cargo };

    fn hand_out<K: Keeper, S: Sink<TrailRow>>(
        &self,
        keeper: &mut K,
        sink: &mut S,
    ) -> Result<(), ActFault> {
        keeper.trail_by(self, sink)
    }
}

/// The command that was accepted under a key.
#[derive(Drop)]
pub struct KeptRow {
    pub key: Key,
    /// Its verb and its fields, with a space between two.
    pub command: RowText,
    /// The count in the reply.
    pub count: u32,
}

/// Returns a command's text on one line.
fn one_line(alloc: Global, text: &[u8]) -> Result<Vec<u8>, AllocError>
    ensures { IfOk result (λ line. line.items ≡ one_line text.now) }
{
    let mut line = Vec::new(alloc);
    for byte in text {
        line.push(if *byte == b'\n' { b' ' } else { *byte })?;
    }
    Ok(line)
}

/// Returns a row of a key, as a list.
fn listed(alloc: Global, key: &Key, kept: &KeptReply) -> Result<Vec<KeptRow>, AllocError>
    ensures { IfOk result (λ rows. rows.items ≡ kept_row key.now (kept_of kept.now) ∷ []) }
{
    let mut rows = Vec::new(alloc);
    rows.push(KeptRow {
        key: *key,
        command: RowText::new(one_line(alloc, kept.request.as_bytes())?),
        count: kept.count,
    })?;
    Ok(rows)
}

/// Returns the command that was accepted under a key, as a list of one row, or none.
fn rows_under<K: Keeper>(alloc: Global, keeper: &mut K, key: &Key) -> Result<Vec<KeptRow>, ActFault>
    ensures { Reads K.keeping keeper.old keeper.new result
        (λ s rows. rows.items ≡ kept_rows s key.now) }
{
    let Some(kept) = keeper.kept_key(key)? else {
        return Ok(Vec::new(alloc));
    };
    match listed(alloc, key, &kept) {
        Ok(rows) => Ok(rows),
        Err(_) => Err(ActFault::Memory),
    }
}

/// The command that was accepted under a key, as the only row if there is one.
#[derive(Drop)]
pub(crate) struct KeptReading {
    pub(crate) alloc: Global,
    pub(crate) key: Key,
}

impl Reading<KeptRow> for KeptReading {
    ghost rows = { λ reading s rows. rows ≡ kept_rows s reading.key };

    fn hand_out<K: Keeper, S: Sink<KeptRow>>(
        &self,
        keeper: &mut K,
        sink: &mut S,
    ) -> Result<(), ActFault> {
        match rows_under(self.alloc, keeper, &self.key) {
            Ok(rows) => {
                hand_out(sink, rows);
                Ok(())
            }
            Err(fault) => Err(fault),
        }
    }
}
