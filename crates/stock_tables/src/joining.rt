//! The rows in place of those that a run touches.
//! The rows before a run, those that it touches, and those behind it.

ghost use Rattle.std.specs.Prelude.{◌≡◌, ◌++◌, true, List, IsSome, IfSome, ℕ, IsTrue};
ghost use Rattle.stock_tables.specs.Common.{is_run, assigned, AreRuns, holders_by, covers};
ghost use Rattle.agent_stock.specs.declared.runs.StockRun.{StockRun as Row};
ghost use Rattle.stock_tables.specs.Stocked.{AreAround, AreNear, written, IsJoined, rows_ahead, rows_near, rows_behind};

use crate::near::{before, behind};
use agent_stock::{Holder, Run, StockRun};
use awb_number::Awb;

/// The number of serials that a prefix has.
pub(crate) const SERIALS: u64 = awb_number::SERIALS as u64;

/// The rows that are written in place of those that a run touches, in ascending order.
#[derive(Clone, Copy)]
pub struct Joined {
    /// The rest of a row of another holder that begins before the run.
    pub left: Option<StockRun>,
    /// The run, with the neighbours of its holder.
    pub row: StockRun,
    /// The rest of a row of another holder that ends behind the run.
    pub right: Option<StockRun>,
}

/// Returns the rows in place of those that a run touches, if the run goes to a holder: the rows
/// that the run cuts are split, and the run is joined with the rows beside it that its new holder
/// has. A row that only stands beside the run and has another holder comes back as it was. `None`:
/// the rows aren't in ascending order, or end past their prefix.
pub fn join_rows(near: &[StockRun], run: &Run, to: &Holder) -> Option<Joined>
    requires { is_run run.now ≡ true }
    ensures some { (ahead after : List Row) → AreRuns (ahead ++ (near.now ++ after))
        → AreNear run.now near.now → IsSome result }

    // The numbers of the run have the holder, and every other number has the one that it had.
    ensures assigned { (ahead after : List Row) → AreRuns (ahead ++ (near.now ++ after))
        → AreAround run.now ahead after → AreNear run.now near.now
        → IfSome result (λ new. holders_by (ahead ++ (written new ++ after))
        ≡ assigned (holders_by (ahead ++ (near.now ++ after))) run.now to.now) }
    ensures runs { (ahead after : List Row) → AreRuns (ahead ++ (near.now ++ after))
        → AreAround run.now ahead after → AreNear run.now near.now
        → IfSome result (λ new. AreRuns (ahead ++ (written new ++ after))) }
    ensures beside { IfSome result (λ new. IsJoined to.now new) }
{
    let first = run.first.key();
    let end = first + u64::from(run.count.number());
    let (low, left) = before(near, first, to)?;
    let (high, right) = behind(near, end, to)?;
    let count = high.checked_sub(low)?;
    if count > SERIALS {
        return None;
    }
    let row = StockRun {
        first: Awb::of_key(low)?,
        count: count as u32,
        holder: *to,
    };
    Some(Joined { left, row, right })
}

/// Rows in ascending order are those that lie before a run, those that it touches, and those that
/// lie behind it; and the rows that it touches say who has its numbers.
pub fn parts_law(run: &Run)
    requires { is_run run.now ≡ true }
    ensures parted { (rows : List Row) → AreRuns rows
        → rows ≡ rows_ahead run.now rows ++ (rows_near run.now rows ++ rows_behind run.now rows) }
    ensures around { (rows : List Row) → AreRuns rows
        → AreAround run.now (rows_ahead run.now rows) (rows_behind run.now rows) }
    ensures near { (rows : List Row) → AreNear run.now (rows_near run.now rows) }
    ensures holders { (rows : List Row) → AreRuns rows → (q : ℕ) → IsTrue (covers run.now q)
        → holders_by (rows_near run.now rows) q ≡ holders_by rows q }
{}
