//! A run of numbers is given to a holder, in a transaction.
//! The holder of a number.

ghost use Rattle.std.specs.Prelude.{◌≡◌, true, map, OnOk, IfOk};
ghost use Rattle.stock_tables.specs.Common.{entries, is_run, assigned, IsShowing, Survives, at_rest, inside, Tables, holders_in, run_in, Reads, stock_meant};
ghost use Rattle.stock_tables.specs.Stocked.{rows_near, Stocked, Restocked, using_up, holder_at};

use crate::join_rows;
use crate::near::{near_of, without_neighbours};
use crate::writing::{clear, put_all};
use agent_stock::{Holder, Run, StockRun};
use awb_number::Awb;
use row_codec::run_by;
use station_rows::{StockRow, StockUpTo, StoreFault, TableStore};
use std::alloc::Global;

/// Gives a run to a holder, by the rows that it touches.
fn give<S: TableStore>(
    alloc: Global,
    store: &mut S,
    run: &Run,
    near: &[StockRun],
    to: &Holder,
) -> Result<(), StoreFault>
    requires { is_run run.now ≡ true }
    ensures done { (before t : Tables) → IsShowing (S.view store.old) (inside before t) → Stocked t
        → ((S.view store.old).IsSound → near.now ≡ rows_near run.now (map run_in (entries t.stock)))
        → OnOk result ((S.view store.new).IsSound
        → Restocked (S.view store.new) before t (assigned (holders_in t.stock) run.now to.now)) }
    ensures survives { Survives (S.view store.old) (S.view store.new) }
{
    let near = without_neighbours(near, run, to);
    let Some(new) = join_rows(near, run, to) else {
        return Err(StoreFault);
    };
    clear(store, near, &new)?;
    put_all(alloc, store, near, &new)?;
    Ok(())
}

/// The same, in a transaction that it begins.
pub(crate) fn begin_giving<S: TableStore>(
    alloc: Global,
    store: &mut S,
    run: &Run,
    near: &[StockRun],
    to: &Holder,
) -> Result<(), StoreFault>
    requires { is_run run.now ≡ true }
    ensures done { (t : Tables) → IsShowing (S.view store.old) (at_rest t) → Stocked t
        → ((S.view store.old).IsSound → near.now ≡ rows_near run.now (map run_in (entries t.stock)))
        → OnOk result ((S.view store.new).IsSound
        → Restocked (S.view store.new) t t (assigned (holders_in t.stock) run.now to.now)) }
    ensures survives { Survives (S.view store.old) (S.view store.new) }
{
    store.begin()?;
    give(alloc, store, run, near, to)?;
    Ok(())
}

/// Notes that a waybill was declared under a number, in a transaction: its holder is `Used` from
/// then on, also where it wasn't in stock. A fault: no transaction is open, a database call failed,
/// or memory runs out.
pub fn use_up<S: TableStore>(alloc: Global, store: &mut S, awb: &Awb) -> Result<(), StoreFault>
    ensures done { (before t : Tables) → IsShowing (S.view store.old) (inside before t) → Stocked t
        → OnOk result ((S.view store.new).IsSound
        → Restocked (S.view store.new) before t (using_up (holders_in t.stock) awb.now)) }
    ensures survives { Survives (S.view store.old) (S.view store.new) }
{
    let run = Run::of_one(*awb);
    let near = near_of(alloc, store, &run)?;
    give(alloc, store, &run, &near, &Holder::Used)?;
    Ok(())
}

/// The holder in a row, where the row reaches a number. A fault: the row is out of range.
fn holder_in(row: &StockRow, awb: &Awb) -> Result<Option<Holder>, StoreFault>
    ensures { IfOk result (λ holder. holder ≡ holder_at awb.now (run_in (stock_meant row.now))) }
{
    let Some(run) = run_by(row) else {
        return Err(StoreFault);
    };
    if awb.key() < run.first.key() + u64::from(run.count) {
        Ok(Some(run.holder))
    } else {
        Ok(None)
    }
}

/// Returns the holder of a number, `None` if it isn't in stock, inside a transaction or outside. A
/// fault: the database call failed, or an earlier one did; outside a transaction it changes
/// nothing.
pub fn holder<S: TableStore>(store: &mut S, awb: &Awb) -> Result<Option<Holder>, StoreFault>
    ensures { Reads (S.view store.old) (S.view store.new) result
        (λ tables holder. Stocked tables → holder ≡ holders_in tables.stock awb.now) }
{
    let row = store.read(StockUpTo {
        prefix: i64::from(awb.prefix()),
        low: i64::from(awb.serial()),
    })?;
    match row {
        Some(row) => holder_in(&row, awb),
        None => Ok(None),
    }
}
