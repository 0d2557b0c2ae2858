//! Sums of a flight's movements, by waybill.
ghost use Rattle.std.specs.Prelude.{◌≡◌, ◌++◌, true, false, IfErr, IfOk, IfSome, OnOk};
ghost use Rattle.reports.specs.Common.{IsOrdered, flat_map, nat_cmp, IsMemory};
ghost use Rattle.reports.specs.Passes.{counted, listed, nothing_of, row_of, with_move};

use crate::manifest::ManifestRow;
use awb_number::Awb;
use shipment_machine::{Amount, FlightDate, Move, Place};
use station_core::{ActFault, BookRow, Sink};
use std::alloc::Global;
use std::collections::BTreeMap;

/// The pieces and tenths of a kilogram of some movements.
#[derive(Clone, Copy)]
pub(crate) struct Count {
    pub(crate) pieces: u64,
    pub(crate) tenths: u64,
}

pub(crate) const ZERO: Count = Count {
    pieces: 0,
    tenths: 0,
};

impl Count {
    /// Returns the count with another movement, if `is_counted`. It is `None` if a sum doesn't fit
    /// into 64 bits, which takes more than 10^12 movements.
    pub(crate) fn with(self, is_counted: bool, movement: &Move) -> Option<Count>
        ensures { IfSome result (λ sum. sum ≡ counted is_counted movement.now self) }
    {
        if !is_counted {
            return Some(self);
        }
        let pieces = u64::from(movement.pieces.number());
        let tenths = u64::from(movement.tenths.number());
        Some(Count {
            pieces: self.pieces.checked_add(pieces)?,
            tenths: self.tenths.checked_add(tenths)?,
        })
    }
}

/// The sums of a waybill's movements on a flight.
#[derive(Clone, Copy)]
struct FlightSums {
    awb: Awb,
    /// The amount built for the flight.
    brought: Count,
    /// The amount taken from the flight: offloaded, or departed.
    removed: Count,
    /// The amount that departed with the flight.
    departed: Count,
}

/// Returns an amount, or `None` if it doesn't fit into 32 bits.
pub(crate) fn amount_of(pieces: u64, tenths: u64) -> Option<Amount>
    ensures { IfSome result (λ amount. amount ≡ record { pieces = pieces; tenths = tenths }) }
{
    let pieces = u32::try_from(pieces).ok()?;
    let tenths = u32::try_from(tenths).ok()?;
    Some(Amount { pieces, tenths })
}

impl FlightSums {
    /// Returns the sums without movements.
    fn new(awb: Awb) -> FlightSums
        ensures { result ≡ nothing_of awb }
    {
        FlightSums {
            awb,
            brought: ZERO,
            removed: ZERO,
            departed: ZERO,
        }
    }

    /// Returns the sums with another movement.
    fn with(&self, flight: &FlightDate, movement: &Move) -> Option<FlightSums>
        ensures { IfSome result (λ tally. tally ≡ with_move flight.now movement.now self.now) }
    {
        let built = Place::Built(*flight);
        let is_from = built.is_same(&movement.from);
        let is_away = is_from && Place::Departed.is_same(&movement.to);
        Some(FlightSums {
            awb: self.awb,
            brought: self.brought.with(built.is_same(&movement.to), movement)?,
            removed: self.removed.with(is_from, movement)?,
            departed: self.departed.with(is_away, movement)?,
        })
    }

    fn row(&self) -> Option<ManifestRow>
        ensures { IfSome result (λ row. row ≡ row_of self.now) }
    {
        let pieces = self.brought.pieces.saturating_sub(self.removed.pieces);
        let tenths = self.brought.tenths.saturating_sub(self.removed.tenths);
        Some(ManifestRow {
            awb: self.awb,
            built: amount_of(pieces, tenths)?,
            departed: amount_of(self.departed.pieces, self.departed.tenths)?,
        })
    }
}

/// Appends the row of a waybill, if it has pieces.
fn put_row(rows: &mut Vec<ManifestRow>, tally: &FlightSums) -> Result<(), ActFault>
    ensures fault { IfErr result IsMemory }
    ensures rows { OnOk result (rows.new.items ≡ rows.old.items ++ listed tally.now) }
{
    let Some(row) = tally.row() else {
        return Err(ActFault::Memory);
    };
    if !row.has_pieces() {
        return Ok(());
    }
    match rows.push(row) {
        Ok(()) => Ok(()),
        Err(_) => Err(ActFault::Memory),
    }
}

/// Sums of a flight's movements, by waybill.
#[derive(Drop)]
pub(crate) struct Tallies {
    flight: FlightDate,
    by_number: BTreeMap<u64, FlightSums>,
    // True if a movement didn't fit.
    is_full: bool,
}

impl Tallies {
    ghost use Rattle.reports.specs.Passes.{IsNew, TakesMove, tally_in};

    /// Starts without movements.
    pub(crate) fn new(alloc: Global, flight: &FlightDate) -> Tallies
        ensures { IsNew flight.now result }
    {
        Tallies {
            flight: *flight,
            by_number: BTreeMap::new(alloc),
            is_full: false,
        }
    }

    fn tally(&self, awb: Awb) -> FlightSums
        ensures { result ≡ tally_in self.now awb }
    {
        match self.by_number.get(&awb.key()) {
            Some(tally) => *tally,
            None => FlightSums::new(awb),
        }
    }

    /// Adds a movement. Returns false if it doesn't fit.
    fn add(&mut self, movement: &Move) -> bool
        ensures { result ≡ true → TakesMove self.old movement.now true self.new }
    {
        let Some(tally) = self.tally(movement.awb).with(&self.flight, movement) else {
            return false;
        };
        self.by_number.insert(movement.awb.key(), tally).is_ok()
    }

    /// Returns the rows of the waybills with pieces, ascending.
    pub(crate) fn rows(&self, alloc: Global) -> Result<Vec<ManifestRow>, ActFault>
        ensures fault { IfErr result IsMemory }
        ensures room { OnOk result (self.now.is_full ≡ false) }
        ensures ordered { IsOrdered nat_cmp self.now.by_number }
        ensures rows { IfOk result (λ rows. rows.items
            ≡ flat_map (λ e. listed e.1) self.now.by_number.entries) }
    {
        let mut rows = Vec::new(alloc);
        for (_, tally) in &self.by_number {
            put_row(&mut rows, tally)?;
        }
        if self.is_full {
            return Err(ActFault::Memory);
        }
        Ok(rows)
    }
}

impl Sink<BookRow> for Tallies {
    ghost use Rattle.reports.specs.Passes.{TakesMove};

    ghost takes = { λ old row go new. TakesMove old row.movement go new };

    fn take(&mut self, row: BookRow) -> bool {
        if self.add(&row.movement) {
            return true;
        }
        self.is_full = true;
        false
    }
}
