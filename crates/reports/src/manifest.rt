//! Manifests of flights.
//! Rows selected from those of a report.

ghost use Rattle.std.specs.Prelude.{◌≡◌, true, false, IfErr, IfOk, Err, not};
ghost use Rattle.reports.specs.Passes.{has_pieces, manifest_rows};
ghost use Rattle.reports.specs.Common.{IfSound, IsReadersFault, OnlyReads, Reopens, State};
ghost use Rattle.reports.specs.Reports.{is_open, is_held_by};

use crate::readings::Reading;
use crate::tallies::Tallies;
use agent_stock::{AgentCode, Holder, StockRun};
use awb_number::Awb;
use shipment_machine::{Amount, FlightDate};
use station_core::{ActFault, BookQuery, FlightRow, Keeper, Sink, hand_out};
use std::alloc::Global;

/// A waybill on a flight.
#[derive(Clone, Copy)]
pub struct ManifestRow {
    pub awb: Awb,
    /// The amount built for the flight now.
    pub built: Amount,
    /// The amount that departed with the flight.
    pub departed: Amount,
}

impl ManifestRow {
    pub(crate) fn has_pieces(&self) -> bool
        ensures { result ≡ has_pieces self.now }
    {
        self.built.pieces > 0 || self.departed.pieces > 0
    }
}

/// Returns the manifest of a flight, in one pass over its movements.
fn manifest_of<K: Keeper>(
    alloc: Global,
    keeper: &mut K,
    flight: &FlightDate,
) -> Result<Vec<ManifestRow>, ActFault>
    ensures reopen { Reopens K.keeping keeper.old keeper.new result }
    ensures fault { K.keeping.is_broken keeper.old ≡ false → IfErr result
        (IsReadersFault K.keeping.may_fail) }
    ensures reads { OnlyReads K.keeping keeper.old keeper.new }
    ensures rows { IfSound K.keeping keeper.old keeper.new
        (λ s. IfOk result (λ rows. rows.items ≡ manifest_rows s.cargo flight.now)) }
{
    let mut tallies = Tallies::new(alloc, flight);
    match keeper.book_by(&BookQuery::On(*flight), &mut tallies) {
        Ok(()) => tallies.rows(alloc),
        Err(fault) => Err(fault),
    }
}

#[derive(Drop)]
pub(crate) struct ManifestReading {
    pub(crate) alloc: Global,
    pub(crate) flight: FlightDate,
}

impl Reading<ManifestRow> for ManifestReading {
    ghost rows = { λ reading s rows. rows ≡ manifest_rows s.cargo reading.flight };

    fn hand_out<K: Keeper, S: Sink<ManifestRow>>(
        &self,
        keeper: &mut K,
        sink: &mut S,
    ) -> Result<(), ActFault> {
        match manifest_of(self.alloc, keeper, &self.flight) {
            Ok(rows) => {
                hand_out(sink, rows);
                Ok(())
            }
            Err(fault) => Err(fault),
        }
    }
}

/// A selection of rows.
pub(crate) trait Pick<Row> {
    ghost use Rattle.std.specs.Prelude.{Bool};

    /// True if a row is selected.
    ghost wanted: { Self → Row → Bool };

    fn wants(&self, row: &Row) -> bool
        ensures { result ≡ wanted self.now row.now };
}

#[derive(Drop)]
pub(crate) struct EveryRow;

impl<Row> Pick<Row> for EveryRow {
    ghost wanted = { λ pick row. true };

    fn wants(&self, _row: &Row) -> bool {
        true
    }
}

/// The noted flights that haven't departed.
#[derive(Drop)]
pub(crate) struct OpenFlights;

impl Pick<FlightRow> for OpenFlights {
    ghost wanted = { λ pick row. is_open row };

    fn wants(&self, row: &FlightRow) -> bool {
        !row.noted.outbound.closed
    }
}

#[derive(Drop)]
pub(crate) struct OfAgent {
    pub(crate) code: AgentCode,
}

impl Pick<StockRun> for OfAgent {
    ghost wanted = { λ pick run. is_held_by pick.code run };

    fn wants(&self, run: &StockRun) -> bool {
        match &run.holder {
            Holder::Agent(code) => code.as_bytes() == self.code.as_bytes(),
            _ => false,
        }
    }
}
