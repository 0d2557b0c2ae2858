//! The stock as its maximal runs.
ghost use Rattle.std.specs.Prelude.{IfOk, OnOk};
ghost use Rattle.state_store.specs.Common.{AreStockRuns, IsNoneFrom, Holders};
ghost use Rattle.state_store.specs.Store.{with_numbers, holders_of};

use crate::StoreFault;
use crate::maps::stock::MapStock;
use agent_stock::{Holder, StockRun, put_run};
use awb_number::{Awb, SERIALS};
use std::alloc::Global;

/// Appends the numbers from one key up to another, which one holder has: a run for each prefix. A
/// key that isn't a number's is a fault.
fn put_numbers(
    rows: &mut Vec<StockRun>,
    first: u64,
    end: u64,
    holder: &Holder,
) -> Result<(), StoreFault>
    ensures { (held : Holders) → IsNoneFrom first held → AreStockRuns held rows.old.items
        → OnOk result (AreStockRuns (with_numbers held first end holder.now) rows.new.items) }
{
    let mut from = first;
    while from < end {
        let Some(number) = Awb::of_key(from) else {
            return Err(StoreFault);
        };
        let count = (end - from).min(u64::from(SERIALS - number.serial()));
        put_run(
            rows,
            StockRun {
                first: number,
                count: count as u32,
                holder: *holder,
            },
        )?;
        from += count;
    }
    Ok(())
}

impl MapStock {
    /// Returns the maximal runs of the stock, ascending.
    pub(crate) fn runs(&self, alloc: Global) -> Result<Vec<StockRun>, StoreFault>
        ensures { IfOk result (λ rows. AreStockRuns (holders_of self.now) rows.items) }
    {
        let mut rows = Vec::new(alloc);
        let mut from = 0;
        let mut named: Option<Holder> = None;
        for (key, next) in &self.begins {
            match named {
                Some(holder) => put_numbers(&mut rows, from, *key, &holder)?,
                None => {}
            }
            from = *key;
            named = *next;
        }
        match named {
            None => Ok(rows),
            Some(_) => Err(StoreFault),
        }
    }
}
