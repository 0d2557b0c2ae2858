ghost use Rattle.std.specs.Prelude.{◌≡◌, ◌≢◌, [], ℕ, List, IfOk, Err, pos, ℤ, ◌∷◌};
ghost use Rattle.table_load.specs.Common.{is_lt, Ordering, Survives, Database, state, entries, Station, IsStation, IsOldStation, tables_of, old_tables_of};
ghost use Rattle.sqlite.specs.Order.{Row as Values};
ghost use Rattle.table_load.specs.Upgrade.{IsQuery, column_names, HoldsTyped, HoldsOld};
ghost use Rattle.table_load.specs.Held.{AreLawful, HoldsTable, Agrees, FindsTable, FoldsTable, IsText, HoldsOldWaybill, HasOldWaybillTexts, HoldsWaybill, HasWaybillTexts, HoldsStock, HasStockTexts, HoldsFlight, HasFlightTexts, HoldsMoves, HasMovesTexts, HoldsExpected, HasExpectedTexts, HoldsPart, HasPartTexts, HoldsTrail, HasTrailTexts, HoldsOutbox, HasOutboxTexts, HoldsKeptKey, HasKeptKeyTexts, HoldsKeptText, HasKeptTextTexts, HoldsCounts, HasCountsTexts, HoldsBuild, HasBuildTexts, station_of, row_of_version, one_row};
ghost use Rattle.table_load.specs.declared.cells.RowError.TheVariants.{Mismatch};
ghost use Rattle.table_load.specs.declared.station.FileVersion.TheVariants.{First, Second};

use crate::cells::{Cells, RowError};
use crate::query::{TableQuery, has_table};
use crate::walk::{Collected, RowFold, ended, walked};
use sqlite::{Alter, Connection, Error};
use std::alloc::Global;

/// A typed row of a table, with an order of the keys.
pub trait KeyedRow: Drop {
    /// The entry of a row.
    ghost Entry: { Type 0 };

    ghost meant: { Self → Entry };

    /// The table's name, and its columns, key first.
    ghost name: { List ℕ };

    ghost columns: { List (List ℕ) };

    /// The values of an entry's columns.
    ghost to_row: { Entry → Values };

    ghost from_row: { Values → Entry };

    /// The order of the keys.
    ghost cmp: { Entry → Entry → Ordering };

    /// The entry's texts are texts.
    ghost IsLawful: { Entry → Type 0 };

    /// The query for all rows, in the order of their keys.
    fn query() -> TableQuery<'static>
        ensures selects { IsQuery result }
        ensures agrees { Agrees result.keys to_row cmp }
        ensures named { result.name.now ≡ name }
        ensures columns { column_names result ≡ columns };

    /// Reads the row with these values, if they are one.
    fn typed(cells: &mut Cells<'_>) -> Result<Self, RowError>
        ensures some { IfOk result (λ r. cells.old ≡ to_row (meant r)) }
        ensures lawful { IfOk result (λ r. IsLawful (meant r)) }
        ensures none { result ≡ Err Mismatch → (e : Entry) → IsLawful e → cells.old ≢ to_row e };

    /// Returns whether the key of the row is less than that of the next one.
    fn is_below(&self, next: &Self) -> bool
        ensures { result ≡ is_lt (cmp (meant self.now) (meant next.now)) };

    ghost back: { (e : Entry) → from_row (to_row e) ≡ e };
}

/// Folds the rows of a table of any database in the order of their keys.
///
/// Returns `None` if the table or a column is missing, a value has another type, a text isn't
/// UTF-8, or a key occurs twice. Fails if memory runs out, the fold fails, or the database can't be
/// read. Then an open transaction may have been rolled back.
pub fn fold_rows<S: Alter, T: KeyedRow, F: RowFold<T> + Drop>(
    alloc: Global,
    conn: &mut Connection<S>,
    beside: &F::Beside,
    fold: F,
) -> Result<Option<F>, Error>
    requires begun { F.has beside.now fold [] }
    ensures read { FoldsTable S.Store conn.old conn.new result (F.has beside.now) T.meant
        (λ db. HoldsTable db T.name T.columns T.to_row (AreLawful T.cmp T.IsLawful)) }
    ensures survives { Survives (state S.Store conn.old) (state S.Store conn.new) (λ _. ⊥) }
{
    let query = T::query();
    if !has_table(conn.schema(), query.name, query.columns) {
        return Ok(None);
    }
    let walk = walked::<S, T, F>(alloc, conn, query.text, beside, fold)?;
    ended::<T, F>(walk, beside)
}

/// Returns all rows of a table of any database, typed and in the order of their keys. For `None`
/// and errors see [`fold_rows`].
pub fn found_rows<S: Alter, T: KeyedRow>(
    alloc: Global,
    conn: &mut Connection<S>,
) -> Result<Option<Vec<T>>, Error>
    ensures read { FindsTable S.Store conn.old conn.new result T.meant
        (λ db. HoldsTable db T.name T.columns T.to_row (AreLawful T.cmp T.IsLawful)) }
    ensures survives { Survives (state S.Store conn.old) (state S.Store conn.new) (λ _. ⊥) }
{
    let none = Collected::new(alloc);
    match fold_rows::<S, T, Collected<T>>(alloc, conn, &(), none)? {
        None => Ok(None),
        Some(collected) => Ok(Some(collected.rows)),
    }
}

/// A table of a database has at most one list of entries.
pub fn held_once<T: KeyedRow>(keys: usize)
    requires agrees { Agrees keys T.to_row T.cmp }
    ensures once { (db : Database) (name : List ℕ) (columns : List (List ℕ)) (xs ys : List T.Entry)
        → HoldsTable db name columns T.to_row (AreLawful T.cmp T.IsLawful) xs
        → HoldsTable db name columns T.to_row (AreLawful T.cmp T.IsLawful) ys → xs ≡ ys }
{
    let _keys = keys;
}

/// In a database with the tables that a station declares, in a file of version 2, the entries are
/// those of its typed tables, and these are its entries if their texts are texts.
pub fn held_is_typed()
    ensures station { (db : Database) (airport : List ℕ) (confirmed : ℤ) → IsStation db
        → (tables_of db.trees).stations ≡ row_of_version Second airport confirmed ∷ []
        → IsText airport → station_of Second db ≡ one_row airport confirmed }
    ensures old_waybill { HoldsTyped HoldsOldWaybill HasOldWaybillTexts (λ t. t.old_waybills) }
    ensures waybill { HoldsTyped HoldsWaybill HasWaybillTexts (λ t. t.waybills) }
    ensures stock { HoldsTyped HoldsStock HasStockTexts (λ t. entries t.stock) }
    ensures flight { HoldsTyped HoldsFlight HasFlightTexts (λ t. entries t.flights) }
    ensures moves { HoldsTyped HoldsMoves HasMovesTexts (λ t. t.moves) }
    ensures expected { HoldsTyped HoldsExpected HasExpectedTexts (λ t. entries t.expected) }
    ensures part { HoldsTyped HoldsPart HasPartTexts (λ t. entries t.parts) }
    ensures trail { HoldsTyped HoldsTrail HasTrailTexts (λ t. t.trail) }
    ensures outbox { HoldsTyped HoldsOutbox HasOutboxTexts (λ t. t.outbox) }
    ensures kept_key { HoldsTyped HoldsKeptKey HasKeptKeyTexts (λ t. entries t.kept) }
    ensures kept_text { HoldsTyped HoldsKeptText HasKeptTextTexts (λ t. entries t.kept_texts) }
    ensures counts { HoldsTyped HoldsCounts HasCountsTexts (λ t. entries t.counts) }
    ensures build { HoldsTyped HoldsBuild HasBuildTexts (λ t. entries t.builds) }
{}

/// The same for a file of version 1.
pub fn held_is_old()
    ensures station { (db : Database) (airport : List ℕ) (confirmed : ℤ) → IsOldStation db
        → (old_tables_of db.trees).stations ≡ row_of_version First airport confirmed ∷ []
        → IsText airport → station_of First db ≡ one_row airport confirmed }
    ensures old_waybill { HoldsOld HoldsOldWaybill HasOldWaybillTexts (λ t. t.old_waybills) }
    ensures stock { HoldsOld HoldsStock HasStockTexts (λ t. entries t.stock) }
    ensures flight { HoldsOld HoldsFlight HasFlightTexts (λ t. entries t.flights) }
    ensures moves { HoldsOld HoldsMoves HasMovesTexts (λ t. t.moves) }
    ensures expected { HoldsOld HoldsExpected HasExpectedTexts (λ t. entries t.expected) }
    ensures part { HoldsOld HoldsPart HasPartTexts (λ t. entries t.parts) }
    ensures trail { HoldsOld HoldsTrail HasTrailTexts (λ t. t.trail) }
    ensures outbox { HoldsOld HoldsOutbox HasOutboxTexts (λ t. t.outbox) }
    ensures kept_key { HoldsOld HoldsKeptKey HasKeptKeyTexts (λ t. entries t.kept) }
    ensures kept_text { HoldsOld HoldsKeptText HasKeptTextTexts (λ t. entries t.kept_texts) }
    ensures counts { HoldsOld HoldsCounts HasCountsTexts (λ t. entries t.counts) }
    ensures build { HoldsOld HoldsBuild HasBuildTexts (λ t. entries t.builds) }
{}
