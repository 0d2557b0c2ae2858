//! The rows that a run touches.
//! The rests of the rows at the ends of a run.

ghost use Rattle.std.specs.Prelude.{◌≡◌, ◌++◌, map, filter, option_map, IfSome, IfOk, ◌≤◌, ◌+◌, IsSome};
ghost use Rattle.stock_tables.specs.Common.{entries, Reads, stock_meant, run_in, AllByRecursion, IsRunRow};
ghost use Rattle.stock_tables.specs.Stocked.{rows_near, reaches, reaching, are_enough, Stocked, IsCut, EndsBehind, BeginsAhead, Before, Behind};

use crate::row::end_key;
use agent_stock::{Holder, Run, StockRun};
use awb_number::Awb;
use row_codec::run_by;
use station_rows::{LastStockUpTo, StockBetween, StockRow, StockUpTo, StoreFault, TableStore};
use std::alloc::Global;
use std::slice;

/// The number of rows that an order reads at once: a single number touches three at most, its own
/// and those beside it.
const ROWS_AT_ONCE: u32 = 3;

/// Rows as runs, behind others. `None`: a row is out of range, or memory runs out.
pub(crate) fn with_rows(
    alloc: Global,
    ahead: &[StockRun],
    rows: &[StockRow],
) -> Option<Vec<StockRun>>
    ensures { IfSome result (λ all. all.items ≡ ahead.now ++ map run_in
        (map stock_meant rows.now)) }
{
    let mut all = Vec::new(alloc);
    all.extend_from_slice(ahead).ok()?;
    for row in rows {
        let run = run_by(row)?;
        all.extend_from_slice(slice::from_ref(&run)).ok()?;
    }
    Some(all)
}

/// The row before a run, where it reaches the run. A fault: it is out of range, or memory runs out.
fn reaching_run(
    alloc: Global,
    run: &Run,
    row: &Option<StockRow>,
) -> Result<Vec<StockRun>, StoreFault>
    ensures { IfOk result (λ near. near.items ≡ reaching run.now
        (option_map run_in (option_map stock_meant row.now))) }
{
    let mut near = Vec::new(alloc);
    if let Some(row) = row {
        let Some(row) = run_by(row) else {
            return Err(StoreFault);
        };
        if run.first.key() <= row.first.key() + u64::from(row.count) && near.push(row).is_err() {
            return Err(StoreFault);
        }
    }
    Ok(near)
}

/// The rows that end right before a run, or later. `None`: memory runs out.
fn reaching_rows(alloc: Global, run: &Run, rows: &[StockRun]) -> Option<Vec<StockRun>>
    ensures { IfSome result (λ near. near.items ≡ filter (reaches run.now) rows.now) }
{
    let mut near = Vec::new(alloc);
    for row in rows {
        if run.first.key() <= end_key(row) {
            near.push(*row).ok()?;
        }
    }
    Some(near)
}

/// Returns whether no row before these, the last up to the end of a run, can touch the run: they
/// are all, or the first of them begins before it.
fn are_all_near(run: &Run, rows: &[StockRun]) -> bool
    ensures { result ≡ are_enough 3 run.now rows.now }
{
    match rows.first() {
        Some(row) if ROWS_AT_ONCE as usize <= rows.len() => row.first.key() < run.first.key(),
        _ => true,
    }
}

/// The rows that a run touches, in ascending order, by one statement. `None`: there may be more.
fn near_at_once<S: TableStore>(
    alloc: Global,
    store: &mut S,
    run: &Run,
) -> Result<Option<Vec<StockRun>>, StoreFault>
    ensures { Reads (S.view store.old) (S.view store.new) result
        (λ tables found. Stocked tables
        → IfSome found (λ near. near.items ≡ rows_near run.now (map run_in
        (entries tables.stock)))) }
{
    let end = i64::from(run.first.serial()) + i64::from(run.count.number());
    let rows = store.read(LastStockUpTo {
        prefix: i64::from(run.first.prefix()),
        low: end,
        count: ROWS_AT_ONCE,
    })?;
    let Some(rows) = with_rows(alloc, &[], &rows) else {
        return Err(StoreFault);
    };
    if !are_all_near(run, &rows) {
        return Ok(None);
    }
    match reaching_rows(alloc, run, &rows) {
        Some(near) => Ok(Some(near)),
        None => Err(StoreFault),
    }
}

/// The rows that a run touches, in ascending order, by two statements: the last row that begins
/// before it, and all that begin in it or right behind it.
fn near_by_two<S: TableStore>(
    alloc: Global,
    store: &mut S,
    run: &Run,
) -> Result<Vec<StockRun>, StoreFault>
    ensures { Reads (S.view store.old) (S.view store.new) result
        (λ tables near. Stocked tables
        → near.items ≡ rows_near run.now (map run_in (entries tables.stock))) }
{
    let prefix = i64::from(run.first.prefix());
    let first = i64::from(run.first.serial());
    let row = store.read(StockUpTo {
        prefix,
        low: first - 1,
    })?;
    let rows = store.read(StockBetween {
        prefix,
        first,
        last: first + i64::from(run.count.number()),
    })?;
    let ahead = reaching_run(alloc, run, &row)?;
    match with_rows(alloc, &ahead, &rows) {
        Some(near) => Ok(near),
        None => Err(StoreFault),
    }
}

/// The rows that a run touches, in ascending order: by one statement, unless they may be more than
/// that reads.
pub(crate) fn near_of<S: TableStore>(
    alloc: Global,
    store: &mut S,
    run: &Run,
) -> Result<Vec<StockRun>, StoreFault>
    ensures { Reads (S.view store.old) (S.view store.new) result
        (λ tables near. Stocked tables
        → near.items ≡ rows_near run.now (map run_in (entries tables.stock))) }
{
    match near_at_once(alloc, store, run)? {
        Some(near) => Ok(near),
        None => near_by_two(alloc, store, run),
    }
}

/// Rows without the first, where it ends before a run and has another holder than the run gets.
fn without_first<'a>(near: &'a [StockRun], run: &Run, to: &Holder) -> &'a [StockRun]
    ensures { BeginsAhead run.now near.now result.now }
{
    let first = run.first.key();
    match near.split_first() {
        Some((row, others)) if end_key(row) <= first && row.holder != *to => others,
        _ => near,
    }
}

/// Rows without the last, where it begins behind a run and has another holder than the run gets.
fn without_last<'a>(near: &'a [StockRun], run: &Run, to: &Holder) -> &'a [StockRun]
    ensures { EndsBehind run.now near.now result.now }
{
    let end = run.first.key() + u64::from(run.count.number());
    match near.split_last() {
        Some((row, others)) if end <= row.first.key() && row.holder != *to => others,
        _ => near,
    }
}

/// The rows that a run touches without those beside it that stay as they are: they have another
/// holder than the run gets.
pub(crate) fn without_neighbours<'a>(near: &'a [StockRun], run: &Run, to: &Holder) -> &'a [StockRun]
    ensures { IsCut run.now near.now result.now }
{
    without_last(without_first(near, run, to), run, to)
}

/// Returns the number of serials of a row.
fn count_of(row: &StockRun) -> u32
    ensures { result ≡ row.now.count }
{
    row.count
}

/// Returns where the new row begins, and the rest of the row that stands out before the run.
/// `None`: that row doesn't reach the run.
pub(crate) fn before(near: &[StockRun], first: u64, to: &Holder) -> Option<(u64, Option<StockRun>)>
    ensures cut { IfSome result (λ r. Before first to.now near.now r.0 r.1) }
    ensures some { AllByRecursion (λ row. first ≤ row.first + row.count) near.now → IsSome result }
{
    let Some((row, _others)) = near.split_first() else {
        return Some((first, None));
    };
    let low = row.first.key();
    if first <= low {
        return Some((first, None));
    }
    if row.holder.is_same(to) {
        return Some((low, None));
    }
    let over = first - low;
    let count = count_of(row);
    if over > u64::from(count) {
        return None;
    }
    let left = StockRun {
        first: row.first,
        count: over as u32,
        holder: row.holder,
    };
    Some((first, Some(left)))
}

/// Returns where the new row ends, and the rest of the row that stands out behind the run. `None`:
/// that row isn't one of numbers.
pub(crate) fn behind(near: &[StockRun], end: u64, to: &Holder) -> Option<(u64, Option<StockRun>)>
    ensures cut { IfSome result (λ r. Behind end to.now near.now r.0 r.1) }
    ensures some { end ≤ 10_000_000_000
        → AllByRecursion (λ row. (row.first ≤ end) × IsRunRow row) near.now → IsSome result }
{
    let Some((row, _others)) = near.split_last() else {
        return Some((end, None));
    };
    let low = row.first.key();
    let high = low + u64::from(row.count);
    if high <= end {
        return Some((end, None));
    }
    if row.holder.is_same(to) {
        return Some((high, None));
    }
    if low > end {
        return None;
    }
    let right = StockRun {
        first: Awb::of_key(end)?,
        count: (high - end) as u32,
        holder: row.holder,
    };
    Some((end, Some(right)))
}
