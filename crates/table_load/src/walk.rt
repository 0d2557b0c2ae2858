ghost use Rattle.std.specs.Prelude.{◌≡◌, ◌++◌, ◌∷◌, [], ℕ, List, IfOk, OnOk, IsTrue};
ghost use Rattle.table_load.specs.Common.{HasGiven, state, HasCleanDisk, Survives, CommitsShowing, Moves};
ghost use Rattle.sqlite.specs.Order.{Row as Values};
ghost use Rattle.table_load.specs.Held.{Agrees, AreLawful, follows, IsTyped, IsWalked, IsReadOnly, TellsRows, Walks};

use crate::cells::{Cells, RowError};
use crate::tables::KeyedRow;
use sqlite::{Alter, Connection, Error, ErrorCode, Row, Rows};
use std::alloc::Global;

/// A walk over a table: all rows given so far are folded, except the last.
#[derive(Drop)]
pub(crate) struct Walk<X, F> {
    /// The last row.
    last: Option<X>,
    /// True if each row has the table's type, and each key is less than the next.
    is_held: bool,
    fold: F,
}

/// Returns the row with these values, if they are one. It fails only if memory runs out.
fn typed_row<T: KeyedRow>(alloc: Global, row: &Row) -> Result<Option<T>, Error>
    ensures { IfOk result (IsTyped T.meant T.to_row T.IsLawful row.now) }
{
    match T::typed(&mut Cells::new(alloc, row)) {
        Ok(typed) => Ok(Some(typed)),
        Err(RowError::Mismatch) => Ok(None),
        Err(RowError::Failed(error)) => Err(error),
    }
}

/// Moves to the next row and types it. There is none after the last.
fn next_typed<S: Alter, T: KeyedRow>(
    alloc: Global,
    rows: &mut Rows<'_, S>,
) -> Result<Option<Option<T>>, Error>
    ensures same_reference { rows.new.conn.ghost_name ≡ rows.old.conn.ghost_name }
    ensures moves { HasCleanDisk (state S.Store rows.new.conn.now)
        → (sql : List ℕ) (params : Values) (given : List Values)
        → HasGiven S.Store sql params rows.old.conn.now given
        → Moves S.Store sql params (IsTyped T.meant T.to_row T.IsLawful)
        rows.old.conn.now rows.new.conn.now given result }
    ensures survives { Survives (state S.Store rows.old.conn.now) (state S.Store rows.new.conn.now)
        (λ _. ⊥) }
{
    rows.advance()?;
    match rows.get() {
        None => Ok(None),
        Some(row) => Ok(Some(typed_row::<T>(alloc, row)?)),
    }
}

fn follows<T: KeyedRow>(last: &Option<T>, next: &T) -> bool
    ensures { result ≡ follows T.meant T.cmp last.now next.now }
{
    match last {
        None => true,
        Some(last) => last.is_below(next),
    }
}

/// Takes the next typed row, and folds the one before it.
fn step<T: KeyedRow, F: RowFold<T>>(
    walk: &mut Walk<T, F>,
    beside: &F::Beside,
    next: Option<T>,
) -> Result<(), Error>
    ensures { (keys : ℕ) (given : List Values) (raw : Values) → Agrees keys T.to_row T.cmp
        → IsTyped T.meant T.to_row T.IsLawful raw next
        → IsWalked (F.has beside.now) T.meant T.to_row (AreLawful T.cmp T.IsLawful) given walk.old
        → OnOk result (IsWalked (F.has beside.now) T.meant T.to_row
        (AreLawful T.cmp T.IsLawful) (given ++ raw ∷ []) walk.new) }
{
    let Some(row) = next else {
        walk.is_held = false;
        return Ok(());
    };
    if !walk.is_held {
        return Ok(());
    }
    if !follows::<T>(&walk.last, &row) {
        walk.is_held = false;
        return Ok(());
    }
    match walk.last.replace(row) {
        None => Ok(()),
        Some(before) => walk.fold.take(beside, before),
    }
}

/// Takes the rows of a query, in its order.
fn walk_rows<S: Alter, T: KeyedRow, F: RowFold<T>>(
    alloc: Global,
    rows: &mut Rows<'_, S>,
    beside: &F::Beside,
    walk: &mut Walk<T, F>,
) -> Result<(), Error>
    ensures same_reference { rows.new.conn.ghost_name ≡ rows.old.conn.ghost_name }
    ensures walks { HasCleanDisk (state S.Store rows.new.conn.now)
        → (sql : List ℕ) (params : Values) (keys : ℕ)
        → HasGiven S.Store sql params rows.old.conn.now []
        → IsTrue (state S.Store rows.old.conn.now).is_open → Agrees keys T.to_row T.cmp
        → IsWalked (F.has beside.now) T.meant T.to_row (AreLawful T.cmp T.IsLawful) [] walk.old
        → Walks sql params (state S.Store rows.old.conn.now) (state S.Store rows.new.conn.now)
        result (λ given x. IsWalked (F.has beside.now) T.meant T.to_row
        (AreLawful T.cmp T.IsLawful) given walk.new) }
    ensures survives { Survives (state S.Store rows.old.conn.now) (state S.Store rows.new.conn.now)
        (λ _. ⊥) }
{
    for _ in 0..u64::MAX {
        match next_typed::<S, T>(alloc, rows)? {
            None => return Ok(()),
            Some(next) => step::<T, F>(walk, beside, next)?,
        }
    }
    Err(Error::SqliteFailure(ErrorCode::TooBig))
}

/// Takes all rows of a query of one table. After an error an open transaction may have been rolled
/// back.
pub(crate) fn walked<S: Alter, T: KeyedRow, F: RowFold<T> + Drop>(
    alloc: Global,
    conn: &mut Connection<S>,
    text: &str,
    beside: &F::Beside,
    fold: F,
) -> Result<Walk<T, F>, Error>
    ensures walks { HasCleanDisk (state S.Store conn.new) → IsTrue (state S.Store conn.old).is_open
        → IsReadOnly (state S.Store conn.old).now.schema text.now → (keys : ℕ)
        → Agrees keys T.to_row T.cmp → F.has beside.now fold []
        → Walks text.now [] (state S.Store conn.old) (state S.Store conn.new) result
        (IsWalked (F.has beside.now) T.meant T.to_row (AreLawful T.cmp T.IsLawful)) }
    ensures survives { Survives (state S.Store conn.old) (state S.Store conn.new)
        (CommitsShowing text.now [] (state S.Store conn.old)) }
{
    let mut rows = conn.query(text, &[])?;
    let mut walk = Walk {
        last: None,
        is_held: true,
        fold,
    };
    walk_rows::<S, T, F>(alloc, &mut rows, beside, &mut walk)?;
    Ok(walk)
}

/// Returns the fold over all rows, or `None` if they aren't entries.
pub(crate) fn ended<T: KeyedRow, F: RowFold<T> + Drop>(
    walk: Walk<T, F>,
    beside: &F::Beside,
) -> Result<Option<F>, Error>
    ensures { (given : List Values)
        → IsWalked (F.has beside.now) T.meant T.to_row (AreLawful T.cmp T.IsLawful) given walk
        → IfOk result (TellsRows (F.has beside.now) T.meant T.to_row
        (AreLawful T.cmp T.IsLawful) given) }
{
    let Walk {
        last,
        is_held,
        mut fold,
    } = walk;
    if !is_held {
        return Ok(None);
    }
    if let Some(row) = last {
        fold.take(beside, row)?;
    }
    Ok(Some(fold))
}

/// A fold over the rows of a table, with what was read before.
pub trait RowFold<Row> {
    ghost use Rattle.std.specs.Prelude.{◌++◌, ◌∷◌, [], List, OnOk};

    /// The values read before the table.
    type Beside;

    /// The relation of a fold to the rows that it took, in order.
    ghost has: { Self.Beside → Self → List Row → Type 0 };

    /// Takes the next row. It fails if memory runs out, or the row can't be numbered.
    fn take(&mut self, beside: &Self::Beside, row: Row) -> Result<(), Error>
        ensures { (rows : List Row) → has beside.now self.old rows
            → OnOk result (has beside.now self.new (rows ++ row ∷ [])) };
}

/// The rows, as a fold.
#[derive(Drop)]
pub(crate) struct Collected<Row> {
    pub(crate) rows: Vec<Row>,
}

impl<Row> Collected<Row> {
    /// Starts without rows.
    pub(crate) fn new(alloc: Global) -> Collected<Row>
        ensures { result.rows.items ≡ [] }
    {
        Collected {
            rows: Vec::new(alloc),
        }
    }
}

impl<Row: Drop> RowFold<Row> for Collected<Row> {
    type Beside = ();

    ghost has = { λ _ collected rows. collected.rows.items ≡ rows };

    fn take(&mut self, beside: &(), row: Row) -> Result<(), Error> {
        let _ = beside;
        Ok(self.rows.push(row)?)
    }
}
