//! The noted flights and the announced waybills, in order.
ghost use Rattle.std.specs.Prelude.{◌≡◌, ◌++◌, IfOk, OnOk};
ghost use Rattle.state_store.specs.Common.{AreAnnounced, AreNoted};
ghost use Rattle.state_store.specs.Store.{announced_by, cargo_of, flights_in, IsSummed};

use crate::StoreFault;
use crate::maps::book::MovementBook;
use crate::maps::state::MapState;
use awb_number::Awb;
use shipment_machine::{Balances, Declared};
use station_core::{AnnouncedRow, NotedFlight};

/// Appends a declared waybill, if nothing of it has come in.
fn put_announced(
    rows: &mut Vec<AnnouncedRow>,
    book: &MovementBook,
    key: u64,
    declared: &Declared,
) -> Result<(), StoreFault>
    ensures { IsSummed book.now → OnOk result (rows.new.items
        ≡ rows.old.items ++ announced_by book.now.moves.items (key, declared.now)) }
{
    let _day = declared.since;
    let Some(awb) = Awb::of_key(key) else {
        return Err(StoreFault);
    };
    let Balances { taken, found, .. } = book.balances(&awb)?;
    if taken.pieces == 0 && found.pieces == 0 {
        rows.push(AnnouncedRow {
            awb,
            declared: *declared,
        })?;
    }
    Ok(())
}

impl MapState {
    /// Returns the noted flights, by their written form and then by day.
    pub(crate) fn noted_rows(&self) -> Result<Vec<NotedFlight>, StoreFault>
        ensures { IfOk result (λ rows. AreNoted (flights_in self.now.flights) rows.items) }
    {
        let mut rows = Vec::new(self.alloc);
        for (key, outbound) in &self.flights {
            rows.push(NotedFlight {
                flight: key.flight,
                outbound: *outbound,
            })?;
        }
        Ok(rows)
    }

    /// Returns the declared waybills of which nothing has come in, ascending.
    pub(crate) fn announced_rows(&self) -> Result<Vec<AnnouncedRow>, StoreFault>
        ensures { IsSummed self.now.book
            → IfOk result (λ rows. AreAnnounced (cargo_of self.now) rows.items) }
    {
        let mut rows = Vec::new(self.alloc);
        for (key, declared) in &self.declared {
            put_announced(&mut rows, &self.book, *key, declared)?;
        }
        Ok(rows)
    }
}
