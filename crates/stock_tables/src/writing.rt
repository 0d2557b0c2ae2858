//! New rows in place of those that a run touches.
ghost use Rattle.std.specs.Prelude.{◌≡◌, ◌∷◌, [], true, Some, OnOk};
ghost use Rattle.stock_tables.specs.Common.{get, AllByRecursion, IsShowing, Survives, inside, Tables, Stock, ShowsChange, stock_meant, with_stock};
ghost use Rattle.stock_tables.specs.Stocked.{listed, written, IsWritable, begins, without, cleared, put_in, restocked, AreThere};

use crate::Joined;
use crate::row::row_of;
use agent_stock::StockRun;
use awb_number::Awb;
use station_rows::{DeleteStock, InsertStock, StockRow, StoreFault, TableStore, UpdateStock};
use std::alloc::Global;

/// Returns whether one of the rows begins with a number.
fn has_first(rows: &[StockRun], number: &Awb) -> bool
    ensures { result ≡ begins number.now rows.now }
{
    rows.iter().any(|row| number.key() == row.first.key())
}

/// The same, of a row that may not be there.
fn is_first(row: &Option<StockRun>, number: &Awb) -> bool
    ensures { result ≡ begins number.now (listed row.now) }
{
    match row {
        Some(row) => number.key() == row.first.key(),
        None => false,
    }
}

/// Returns whether one of the new rows begins with a number.
fn keeps(new: &Joined, number: &Awb) -> bool
    ensures { result ≡ begins number.now (written new.now) }
{
    is_first(&new.left, number)
        || number.key() == new.row.first.key()
        || is_first(&new.right, number)
}

/// Removes a row, unless a new one has its key.
fn clear_row<S: TableStore>(store: &mut S, row: &StockRun, new: &Joined) -> Result<(), StoreFault>
    ensures done { ShowsChange (S.view store.old) (S.view store.new) result
        (λ t. restocked (without (written new.now) row.now t.stock) t) }
    ensures survives { Survives (S.view store.old) (S.view store.new) }
{
    if keeps(new, &row.first) {
        return Ok(());
    }
    let prefix = i64::from(row.first.prefix());
    store.write(DeleteStock {
        prefix,
        low: i64::from(row.first.serial()),
    })?;
    Ok(())
}

/// Removes the rows whose keys no new one has.
pub(crate) fn clear<S: TableStore>(
    store: &mut S,
    near: &[StockRun],
    new: &Joined,
) -> Result<(), StoreFault>
    ensures done { ShowsChange (S.view store.old) (S.view store.new) result
        (λ t. restocked (cleared (written new.now) near.now t.stock) t) }
    ensures survives { Survives (S.view store.old) (S.view store.new) }
{
    for row in near {
        clear_row(store, row, new)?;
    }
    Ok(())
}

/// Writes a row over the one with its key, or anew.
fn write<S: TableStore>(store: &mut S, row: &StockRow, there: bool) -> Result<(), StoreFault>
    ensures done { (before t : Tables) → IsShowing (S.view store.old) (inside before t)
        → (there ≡ true → (S.view store.old).IsSound → (was : Stock)
        × (get t.stock (stock_meant row.now).0 ≡ Some was))
        → OnOk result (IsShowing (S.view store.new)
        (inside before (with_stock (stock_meant row.now) t))) }
    ensures survives { Survives (S.view store.old) (S.view store.new) }
{
    if there {
        store.write(UpdateStock { row })?;
    } else {
        store.write(InsertStock { row })?;
    }
    Ok(())
}

/// Writes a run's row: over the one with its key, where one of `near` has it.
fn put<S: TableStore>(
    alloc: Global,
    store: &mut S,
    near: &[StockRun],
    run: &StockRun,
) -> Result<(), StoreFault>
    ensures done { (before t : Tables) → IsShowing (S.view store.old) (inside before t)
        → ((S.view store.old).IsSound → AreThere near.now (run.now ∷ []) t.stock)
        → OnOk result (IsShowing (S.view store.new)
        (inside before (restocked (put_in (run.now ∷ []) t.stock) t))) }
    ensures writable { OnOk result (IsWritable run.now) }
    ensures survives { Survives (S.view store.old) (S.view store.new) }
{
    let row = row_of(alloc, run)?;
    write(store, &row, has_first(near, &run.first))
}

/// The same, of a run that may not be there.
fn put_some<S: TableStore>(
    alloc: Global,
    store: &mut S,
    near: &[StockRun],
    run: &Option<StockRun>,
) -> Result<(), StoreFault>
    ensures done { (before t : Tables) → IsShowing (S.view store.old) (inside before t)
        → ((S.view store.old).IsSound → AreThere near.now (listed run.now) t.stock)
        → OnOk result (IsShowing (S.view store.new)
        (inside before (restocked (put_in (listed run.now) t.stock) t))) }
    ensures writable { OnOk result (AllByRecursion IsWritable (listed run.now)) }
    ensures survives { Survives (S.view store.old) (S.view store.new) }
{
    match run {
        Some(run) => put(alloc, store, near, run),
        None => Ok(()),
    }
}

/// Writes the new rows: over those with their keys, where they are among `near`.
pub(crate) fn put_all<S: TableStore>(
    alloc: Global,
    store: &mut S,
    near: &[StockRun],
    new: &Joined,
) -> Result<(), StoreFault>
    ensures done { (before t : Tables) → IsShowing (S.view store.old) (inside before t)
        → ((S.view store.old).IsSound → AreThere near.now (written new.now) t.stock)
        → OnOk result (IsShowing (S.view store.new)
        (inside before (restocked (put_in (written new.now) t.stock) t))) }
    ensures writable { OnOk result (AllByRecursion IsWritable (written new.now)) }
    ensures survives { Survives (S.view store.old) (S.view store.new) }
{
    put_some(alloc, store, near, &new.right)?;
    put(alloc, store, near, &new.row)?;
    put_some(alloc, store, near, &new.left)?;
    Ok(())
}
