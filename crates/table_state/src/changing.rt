//! The changes that a plan writes, each in the transaction that is open.
#![tactic(auto, using(crate::proofs::Lifting::survives_so))]

ghost use Rattle.std.specs.Prelude.{[]};
ghost use Rattle.table_state.specs.Common.{written, Confirm, Declare, Expect, NoteFlight, NotePart, Trail, UseUp, Changes, on_cargo};
ghost use Rattle.table_state.specs.Shown.{in_tables};

use crate::state::TableState;
use crate::writing::{put_expected, put_flight, put_waybill};
use awb_number::Awb;
use row_codec::{
    awb_key, day_number, expected_row, flight_text, outbound_row, text, trail_row, waybill_row,
};
use shipment_machine::{Declared, Expected, FlightDate, Outbound, Part, TrailLine};
use state_store::StoreFault;
use station_rows::{InsertPart, InsertTrailLine, TableStore, UpdateConfirmed};

impl<S: TableStore> TableState<S> {
    /// Declares a waybill.
    pub(crate) fn declare(&mut self, awb: &Awb, declared: &Declared) -> Result<(), StoreFault>
        ensures { Changes (in_tables S.view) self.old self.new result
            (on_cargo (written [] (Declare awb.now declared.now))) }
    {
        let row = waybill_row(self.alloc, awb, declared)?;
        let is_missing = self.missed.take_waybill(awb);
        put_waybill(&mut self.store, is_missing, &row)?;
        self.counted.waybills.declare(awb);
        Ok(())
    }

    /// An agent's number is used up.
    pub(crate) fn use_up(&mut self, awb: &Awb) -> Result<(), StoreFault>
        ensures { Changes (in_tables S.view) self.old self.new result
            (on_cargo (written [] (UseUp awb.now))) }
    {
        stock_tables::use_up(self.alloc, &mut self.store, awb)
    }

    /// Notes an outbound flight.
    pub(crate) fn note_flight(
        &mut self,
        flight: &FlightDate,
        outbound: &Outbound,
    ) -> Result<(), StoreFault>
        ensures { Changes (in_tables S.view) self.old self.new result
            (on_cargo (written [] (NoteFlight flight.now outbound.now))) }
    {
        let name = flight_text(self.alloc, &flight.flight)?;
        let row = outbound_row(self.alloc, outbound)?;
        let is_missing = self.missed.take_flight(flight);
        put_flight(
            &mut self.store,
            is_missing,
            &name,
            day_number(flight.day),
            &row,
        )
    }

    /// Notes the expectation of a waybill on a flight.
    pub(crate) fn expect(
        &mut self,
        flight: &FlightDate,
        awb: &Awb,
        expected: &Expected,
    ) -> Result<(), StoreFault>
        ensures { Changes (in_tables S.view) self.old self.new result
            (on_cargo (written [] (Expect flight.now awb.now expected.now))) }
    {
        let name = flight_text(self.alloc, &flight.flight)?;
        let row = expected_row(expected);
        let is_missing = self.missed.take_expected(flight, awb);
        put_expected(
            &mut self.store,
            is_missing,
            &name,
            day_number(flight.day),
            awb_key(awb),
            &row,
        )?;
        self.counted.open_lines.post(flight, awb, expected);
        Ok(())
    }

    /// The telegram in work, which has this text, is this part.
    pub(crate) fn note_part(&mut self, part: &Part, telegram: &[u8]) -> Result<(), StoreFault>
        ensures { Changes (in_tables S.view) self.old self.new result
            (on_cargo (written telegram.now (NotePart part.now))) }
    {
        let name = flight_text(self.alloc, &part.flight.flight)?;
        let airport = text(self.alloc, &part.airport.letters())?;
        let Ok(body) = std::str::from_utf8(telegram) else {
            return Err(StoreFault);
        };
        let (day, number) = (day_number(part.flight.day), i64::from(part.number.number()));
        self.store.write(InsertPart {
            flight: &name,
            day,
            airport: &airport,
            seq: number,
            body,
        })
    }

    /// A line joins the trail of a waybill.
    pub(crate) fn add_line(&mut self, awb: &Awb, line: &TrailLine<'_>) -> Result<(), StoreFault>
        ensures { Changes (in_tables S.view) self.old self.new result
            (on_cargo (written [] (Trail awb.now line.now))) }
    {
        let number = self.counted.sizes.lines.checked_add(1).ok_or(StoreFault)?;
        let row = trail_row(self.alloc, number, awb, line)?;
        self.store.write(InsertTrailLine { row: &row })?;
        self.counted.sizes.lines = number;
        Ok(())
    }

    /// The messages up to this one are confirmed.
    pub(crate) fn confirm(&mut self, upto: u32) -> Result<(), StoreFault>
        ensures { Changes (in_tables S.view) self.old self.new result
            (on_cargo (written [] (Confirm upto))) }
    {
        self.store.write(UpdateConfirmed {
            confirmed: i64::from(upto),
        })?;
        self.confirmed = upto;
        Ok(())
    }
}
