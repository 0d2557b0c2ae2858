//! Arrivals of flights.
ghost use Rattle.std.specs.Prelude.{◌≡◌, ◌++◌, ◌∷◌, [], false, map, IfErr, IfOk, IfSome};
ghost use Rattle.reports.specs.Arrivals.{AreArrivals, arrival_row, arrival_state, is_with, next_sums, no_sums, row_by, sums_of};
ghost use Rattle.reports.specs.Passes.{own_moves};
ghost use Rattle.reports.specs.Common.{IfSound, IsReadersFault, OnlyReads, Reads};

use crate::days::gathered;
use crate::readings::Reading;
use crate::tallies::{Count, ZERO, amount_of};
use awb_number::Awb;
use shipment_machine::{Amount, FlightDate, Move, Place};
use station_core::{
    ActFault, BookQuery, BookRow, ExpectedQuery, ExpectedRow, Keeper, Sink, hand_out,
};
use std::alloc::Global;

/// What is known of an announced waybill.
#[derive(Clone, Copy, PartialEq, Eq)]
pub enum ArrivalState {
    /// It isn't checked in.
    Open,
    /// Its check-in counted what came, and what is missing.
    Checked,
    /// What was left of it was struck.
    Struck,
}

/// An announced waybill of a flight.
#[derive(Clone, Copy)]
pub struct ArrivalRow {
    /// The announced amount as it stands, and the route.
    pub expected: ExpectedRow,
    /// What came of the announced amount.
    pub came: Amount,
    /// What was missing of it at the check-in.
    pub missing: Amount,
    /// What came beyond it.
    pub surplus: Amount,
}

impl ArrivalRow {
    pub fn state(&self) -> ArrivalState
        ensures { result ≡ arrival_state self.now }
    {
        if !self.expected.expectation.expected.checked {
            ArrivalState::Open
        } else if self.came.pieces == 0 && self.missing.pieces == 0 {
            ArrivalState::Struck
        } else {
            ArrivalState::Checked
        }
    }
}

/// Returns whether a movement between two places names a flight.
fn is_with(flight: &FlightDate, from: &Place, to: &Place, movement: &Move) -> bool
    ensures { result ≡ is_with flight.now from.now to.now movement.now }
{
    let is_named = match &movement.flight {
        Some(named) => flight.is_same(named),
        None => false,
    };
    is_named && from.is_same(&movement.from) && to.is_same(&movement.to)
}

/// The sums of a waybill's movements with a flight.
#[derive(Clone, Copy)]
struct ArrivalSums {
    flight: FlightDate,
    came: Count,
    missing: Count,
    surplus: Count,
    // True if a movement didn't fit.
    is_full: bool,
}

impl ArrivalSums {
    /// Starts without movements.
    fn new(flight: &FlightDate) -> ArrivalSums
        ensures { result ≡ no_sums flight.now }
    {
        ArrivalSums {
            flight: *flight,
            came: ZERO,
            missing: ZERO,
            surplus: ZERO,
            is_full: false,
        }
    }

    /// Returns the sums with another movement.
    fn next(&self, movement: &Move) -> Option<ArrivalSums>
        ensures { IfSome result (λ sums. sums ≡ next_sums movement.now self.now) }
    {
        let came = is_with(&self.flight, &Place::Hand, &Place::Free, movement);
        let is_missing = is_with(&self.flight, &Place::Hand, &Place::Missing, movement);
        let is_surplus = is_with(&self.flight, &Place::Surplus, &Place::Free, movement);
        Some(ArrivalSums {
            flight: self.flight,
            came: self.came.with(came, movement)?,
            missing: self.missing.with(is_missing, movement)?,
            surplus: self.surplus.with(is_surplus, movement)?,
            is_full: self.is_full,
        })
    }

    /// Returns the row of an expectation by these sums.
    fn row(&self, expected: &ExpectedRow) -> Option<ArrivalRow>
        ensures { IfSome result (λ row. row ≡ row_by expected.now self.now) }
    {
        Some(ArrivalRow {
            expected: *expected,
            came: amount_of(self.came.pieces, self.came.tenths)?,
            missing: amount_of(self.missing.pieces, self.missing.tenths)?,
            surplus: amount_of(self.surplus.pieces, self.surplus.tenths)?,
        })
    }
}

impl Sink<BookRow> for ArrivalSums {
    ghost use Rattle.reports.specs.Arrivals.{TakesSum};

    ghost takes = { λ old row go new. TakesSum old row.movement go new };

    fn take(&mut self, row: BookRow) -> bool {
        match self.next(&row.movement) {
            Some(next) => {
                *self = next;
                true
            }
            None => {
                self.is_full = true;
                false
            }
        }
    }
}

/// Returns the sums of a waybill's movements with a flight.
fn sums_of<K: Keeper>(
    keeper: &mut K,
    flight: &FlightDate,
    awb: &Awb,
) -> Result<ArrivalSums, ActFault>
    ensures { Reads K.keeping keeper.old keeper.new result
        (λ s sums. sums ≡ sums_of flight.now (own_moves s.cargo.book awb.now)) }
{
    let mut sums = ArrivalSums::new(flight);
    match keeper.book_by(&BookQuery::Of(*awb), &mut sums) {
        Ok(()) if sums.is_full => Err(ActFault::Memory),
        Ok(()) => Ok(sums),
        Err(fault) => Err(fault),
    }
}

/// Returns the row of an expectation, by the movements of its waybill.
fn arrival<K: Keeper>(keeper: &mut K, expected: &ExpectedRow) -> Result<ArrivalRow, ActFault>
    ensures { Reads K.keeping keeper.old keeper.new result
        (λ s row. row ≡ arrival_row s.cargo.book expected.now) }
{
    let expectation = &expected.expectation;
    let sums = sums_of(keeper, &expectation.flight, &expectation.awb)?;
    match sums.row(expected) {
        Some(row) => Ok(row),
        None => Err(ActFault::Memory),
    }
}

/// Puts the row of an expectation behind the others.
fn put_arrival<K: Keeper>(
    keeper: &mut K,
    rows: &mut Vec<ArrivalRow>,
    expected: &ExpectedRow,
) -> Result<(), ActFault>
    ensures { Reads K.keeping keeper.old keeper.new result (λ s done.
        rows.new.items ≡ rows.old.items ++ arrival_row s.cargo.book expected.now ∷ []) }
{
    let row = arrival(keeper, expected)?;
    match rows.push(row) {
        Ok(()) => Ok(()),
        Err(_) => Err(ActFault::Memory),
    }
}

/// Returns the rows of expectations.
fn arrivals_among<K: Keeper>(
    alloc: Global,
    keeper: &mut K,
    expected: &[ExpectedRow],
) -> Result<Vec<ArrivalRow>, ActFault>
    ensures reads { OnlyReads K.keeping keeper.old keeper.new }
    ensures fault { K.keeping.is_broken keeper.old ≡ false
        → IfErr result (IsReadersFault K.keeping.may_fail) }
    ensures rows { IfSound K.keeping keeper.old keeper.new
        (λ s. IfOk result (λ rows. rows.items ≡ map (arrival_row s.cargo.book) expected.now)) }
{
    let mut rows = Vec::new(alloc);
    for row in expected {
        put_arrival(keeper, &mut rows, row)?;
    }
    Ok(rows)
}

/// Returns the arrivals of a flight.
fn arrivals_of<K: Keeper>(
    alloc: Global,
    keeper: &mut K,
    flight: &FlightDate,
) -> Result<Vec<ArrivalRow>, ActFault>
    ensures { Reads K.keeping keeper.old keeper.new result
        (λ s rows. AreArrivals s.cargo flight.now rows.items) }
{
    let expected = gathered(alloc, keeper, &ExpectedQuery::On(*flight))?;
    arrivals_among(alloc, keeper, &expected)
}

/// The arrivals of a flight.
#[derive(Drop)]
pub(crate) struct ArrivalReading {
    pub(crate) alloc: Global,
    pub(crate) flight: FlightDate,
}

impl Reading<ArrivalRow> for ArrivalReading {
    ghost rows = { λ reading s rows. AreArrivals s.cargo reading.flight rows };

    fn hand_out<K: Keeper, S: Sink<ArrivalRow>>(
        &self,
        keeper: &mut K,
        sink: &mut S,
    ) -> Result<(), ActFault> {
        match arrivals_of(self.alloc, keeper, &self.flight) {
            Ok(rows) => {
                hand_out(sink, rows);
                Ok(())
            }
            Err(fault) => Err(fault),
        }
    }
}
