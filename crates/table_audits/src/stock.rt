ghost use Rattle.std.specs.Prelude.{◌≡◌, ◌↔◌, ◌≤◌, ◌+◌, ◌-◌, map, IsTrue, pos};
ghost use Rattle.table_audits.specs.Common.{AllByRecursion, entries, Used, Tables, waybill_meant, stock_meant, is_behind, are_apart, Survives, state};
ghost use Rattle.table_audits.specs.Lawful.{IsLawfulTable};
ghost use Rattle.table_audits.specs.declared.name.TableName.TheVariants as table;
ghost use Rattle.table_audits.specs.Moves.{RisesByNumber, AreDeclared, IsLawfulStock};
ghost use Rattle.table_audits.specs.Verdict.{Audits};

use crate::lookups::is_declared;
use crate::rows::Known;
use agent_stock::{Holder, StockRun};
use row_codec::{awb_key, run_by};
use sqlite::{Alter, Connection, Error};
use station_rows::{StockRow, WaybillRow};
use std::alloc::Global;
use table_load::found_rows;

/// Returns whether each number from the first to the last is declared. It stops at the first that
/// isn't.
fn are_declared(waybills: &[WaybillRow], first: i64, last: i64) -> bool
    ensures { RisesByNumber (map waybill_meant waybills.now)
        → (IsTrue result ↔ AreDeclared (map waybill_meant waybills.now) first last) }
{
    for number in first..=last {
        if !is_declared(waybills, number) {
            return false;
        }
    }
    true
}

fn is_used(run: &StockRun) -> bool
    ensures { IsTrue result ↔ (run.now.holder ≡ Used) }
{
    matches!(run.holder, Holder::Used)
}

/// Returns the last number of a run, with its prefix.
fn last_of(run: &StockRun) -> i64
    requires { 1 ≤ run.now.count }
    ensures { result ≡ pos (run.now.first + run.now.count - 1) }
{
    awb_key(&run.first) + i64::from(run.count - 1)
}

fn is_lawful(row: &StockRow, waybills: &[WaybillRow]) -> bool
    ensures { RisesByNumber (map waybill_meant waybills.now)
        → (IsTrue result ↔ IsLawfulStock (map waybill_meant waybills.now) (stock_meant row.now)) }
{
    let Some(run) = run_by(row) else {
        return false;
    };
    !is_used(&run) || are_declared(waybills, awb_key(&run.first), last_of(&run))
}

fn are_lawful(rows: &[StockRow], waybills: &[WaybillRow]) -> bool
    ensures { RisesByNumber (map waybill_meant waybills.now)
        → (IsTrue result ↔ AllByRecursion (IsLawfulStock (map waybill_meant waybills.now))
        (map stock_meant rows.now)) }
{
    rows.iter().all(|row| is_lawful(row, waybills))
}

/// Returns whether a row begins after the one before it ends.
fn is_behind(row: &StockRow, next: &StockRow) -> bool
    ensures { result ≡ is_behind (stock_meant row.now) (stock_meant next.now) }
{
    row.prefix < next.prefix || (row.prefix == next.prefix && row.high < next.low)
}

fn are_apart(rows: &[StockRow]) -> bool
    ensures { result ≡ are_apart (map stock_meant rows.now) }
{
    rows.is_sorted_by(|row, next| is_behind(row, next))
}

/// Returns whether the rows of `stock`, in the order of their keys, are lawful with the rows of
/// `waybill`, in the order of their numbers.
fn are_stock_lawful(rows: &[StockRow], waybills: &[WaybillRow]) -> bool
    ensures exact { (t : Tables) → RisesByNumber (map waybill_meant waybills.now)
        → t.waybills ≡ map waybill_meant waybills.now → entries t.stock ≡ map stock_meant rows.now
        → (IsTrue result ↔ IsLawfulTable table.Stock t) }
{
    are_apart(rows) && are_lawful(rows, waybills)
}

/// Reads `stock`. Returns whether it exists and is lawful.
pub(crate) fn is_good<S: Alter>(
    alloc: Global,
    conn: &mut Connection<S>,
    known: &Known,
) -> Result<bool, Error>
    ensures read { Audits S.Store conn.old conn.new result table.Stock known.now known.now }
    ensures survives { Survives (state S.Store conn.old) (state S.Store conn.new) (λ _. ⊥) }
{
    let Some(rows) = found_rows::<S, StockRow>(alloc, conn)? else {
        return Ok(false);
    };
    Ok(are_stock_lawful(&rows, &known.beside.waybills))
}
