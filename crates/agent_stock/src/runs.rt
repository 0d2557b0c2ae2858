ghost use Rattle.std.specs.Prelude.{◌≡◌, ◌↔◌, IsTrue, IfOk, OnOk};
ghost use Rattle.agent_stock.specs.Stock.{Holders, AreRuns, AreStockRuns, GoesOn, IsNoneFrom, IsRunRow, holders_by, with_run};

use crate::stock::Holder;
use awb_number::Awb;
use std::alloc::{AllocError, Global};

/// Consecutive numbers of one holder: the first, and their count, at most the 10,000,000 of a
/// prefix.
#[derive(Clone, Copy)]
pub struct StockRun {
    pub first: Awb,
    pub count: u32,
    pub holder: Holder,
}

impl StockRun {
    /// Returns whether the other run begins where this one ends, in its prefix and with its holder.
    fn goes_on(&self, next: &StockRun) -> bool
        ensures { IsTrue result ↔ GoesOn self.now next.now }
    {
        self.first.prefix() == next.first.prefix()
            && self.first.key() + u64::from(self.count) == next.first.key()
            && self.holder.is_same(&next.holder)
    }
}

/// Appends a run to the maximal runs of a stock, or makes the last of them longer by it. The run
/// must lie behind all numbers of that stock. Returns an error if memory runs out.
pub fn put_run(runs: &mut Vec<StockRun>, next: StockRun) -> Result<(), AllocError>
    ensures { (held : Holders) → IsRunRow next → IsNoneFrom next.first held
        → AreStockRuns held runs.old.items
        → OnOk result (AreStockRuns (with_run held next) runs.new.items) }
{
    let Some(last) = runs.pop() else {
        runs.push(next)?;
        return Ok(());
    };
    if last.goes_on(&next) {
        runs.push(StockRun {
            first: last.first,
            count: last.count.saturating_add(next.count),
            holder: last.holder,
        })?;
    } else {
        runs.push(last)?;
        runs.push(next)?;
    }
    Ok(())
}

/// Returns the maximal runs of ascending rows, whose neighbours may have one holder. For other rows
/// there is no guarantee. Returns an error if memory runs out.
pub fn maximal_runs(alloc: Global, rows: &[StockRun]) -> Result<Vec<StockRun>, AllocError>
    ensures { AreRuns rows.now
        → IfOk result (λ runs. AreStockRuns (holders_by rows.now) runs.items) }
{
    let mut runs = Vec::new(alloc);
    for row in rows {
        put_run(&mut runs, *row)?;
    }
    Ok(runs)
}
