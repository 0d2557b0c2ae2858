//! Runs as rows of `stock`.
//! The stock as its runs.
//! The runs that the rows of the stock's table mean.

ghost use Rattle.std.specs.Prelude.{◌≡◌, ℤ, Some, IfOk, OnOk, map};
ghost use Rattle.stock_tables.specs.Common.{holder_by, stock_meant, end_of, AreStockRuns, AreRuns, holders_by, holders_in, run_in, Reads, FinMap, entries, Stock, stock_cmp, AreStockRows};
ghost use Rattle.stock_tables.specs.Stocked.{holder_number, code_of, entry_of, IsWritable, Stocked};

use crate::near::with_rows;
use agent_stock::{Holder, StockRun, maximal_runs};
use station_rows::{AllStock, StockRow, StoreFault, TableStore};
use std::alloc::Global;

/// The number behind a row.
pub(crate) fn end_key(row: &StockRun) -> u64
    ensures { result ≡ end_of row.now }
{
    row.first.key() + u64::from(row.count)
}

/// Returns the columns of a holder: its number, and the agent's code.
fn stored(holder: &Holder) -> (i64, &str)
    ensures number { result.0 ≡ holder_number holder.now }
    ensures code { result.1.now ≡ code_of holder.now }
    ensures back { (high : ℤ)
        → holder_by (record {
          high = high;
          holder = holder_number holder.now;
          agent = code_of
              holder.now;
        }) ≡ Some holder.now }
{
    match holder {
        Holder::Desk => (0, ""),
        Holder::Agent(code) => (1, code.as_str()),
        Holder::Used => (2, ""),
        Holder::Void => (3, ""),
    }
}

/// A run as a row. A fault: it has no numbers, or memory runs out.
pub(crate) fn row_of(alloc: Global, run: &StockRun) -> Result<StockRow, StoreFault>
    ensures row { IfOk result (λ row. stock_meant row ≡ entry_of run.now) }
    ensures writable { OnOk result (IsWritable run.now) }
{
    let (holder, agent) = stored(&run.holder);
    let Some(others) = run.count.checked_sub(1) else {
        return Err(StoreFault);
    };
    let Ok(agent) = String::from_str(alloc, agent) else {
        return Err(StoreFault);
    };
    let low = i64::from(run.first.serial());
    Ok(StockRow {
        prefix: i64::from(run.first.prefix()),
        low,
        high: low + i64::from(others),
        holder,
        agent,
    })
}

/// The maximal runs of rows. A fault: a row is out of range, or memory runs out.
fn runs_of(alloc: Global, rows: &[StockRow]) -> Result<Vec<StockRun>, StoreFault>
    ensures { AreRuns (map run_in (map stock_meant rows.now))
        → IfOk result (λ runs. AreStockRuns (holders_by (map run_in (map stock_meant rows.now)))
        runs.items) }
{
    let Some(all) = with_rows(alloc, &[], rows) else {
        return Err(StoreFault);
    };
    match maximal_runs(alloc, &all) {
        Ok(runs) => Ok(runs),
        Err(_) => Err(StoreFault),
    }
}

/// The stock, as its maximal runs of one holder, ascending. Inside a transaction or outside. A
/// fault: the database call failed, an earlier one did, a row stands for no number or names no
/// holder, or memory runs out; outside a transaction it changes nothing.
pub fn runs<S: TableStore>(alloc: Global, store: &mut S) -> Result<Vec<StockRun>, StoreFault>
    ensures { Reads (S.view store.old) (S.view store.new) result
        (λ tables runs. Stocked tables → AreStockRuns (holders_in tables.stock) runs.items) }
{
    let rows = store.read(AllStock)?;
    runs_of(alloc, &rows)
}

/// Rows within range that are apart are runs in ascending order, and say who has each number as the
/// table does.
pub fn rows_law()
    ensures holders { (stock : FinMap stock_cmp Stock) → AreStockRows stock
        → holders_in stock ≡ holders_by (map run_in (entries stock)) }
    ensures order { (stock : FinMap stock_cmp Stock) → AreStockRows stock
        → AreRuns (map run_in (entries stock)) }
{}
