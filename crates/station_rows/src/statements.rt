ghost use Rattle.std.specs.Prelude.{ℕ, List, Result, ◌≡◌, take, option_to_list, IfOk, true};
ghost use Rattle.station_rows.specs.Common.{state, Row, Executes, HasCleanDisk, taking, HandedOut, Tables, Alters, CommitsNothing, HandsRows, LeavesAll, Tells, CommitsShowing, bound, over_files, connection_view};
ghost use Rattle.sqlite.specs.State.{Survives};
ghost use Rattle.station_rows.specs.Meant.{AreRead, Queries, are_declared};

use crate::rows::Rows;
use crate::store::TableStore;
use row_sinks::Sink;
use sqlite::types::ValueRef;
use sqlite::{Alter, Connection, Error, FileStore, MemStore, Row};
use sqlite_disk::Disk;
use station_schema::{ReadRow, files_lie_in_order, memory_lies_in_order};
use std::alloc::Global;

/// A statement that reads, with what it asks for.
pub trait Read: Drop {
    /// The result of the statement.
    type Found;

    /// The result, for these tables.
    ghost tells: { Self → Tables → Self.Found → Type 0 };

    /// Runs the statement. It fails where the database call fails or memory runs out.
    fn run<S: Alter>(self, conn: &mut Connection<S>) -> Result<Self::Found, Error>
        ensures read { Tells S.Store conn.old conn.new result (tells self) }
        ensures survives { LeavesAll S.Store conn.old conn.new };
}

/// A statement that writes, with what it writes.
pub trait Write: Drop {
    /// The change that it makes.
    ghost change: { Self → Tables → Tables };

    /// Its text and its parameters, for any tables.
    ghost runs: { Self → (List ℕ → Row → Type 0) → Type 0 };

    /// Runs the statement. It fails where a key is taken or the database call fails, and then the
    /// transaction may be undone.
    fn run<S: Alter>(self, conn: &mut Connection<S>) -> Result<usize, Error>
        ensures made { Alters S.Store conn.old conn.new result (change self) }
        ensures ran { HasCleanDisk (state S.Store conn.new)
            → runs self (λ sql params. Executes sql params (state S.Store conn.old)
            (state S.Store conn.new) result) }
        ensures survives { CommitsNothing S.Store conn.old conn.new };
}

/// A statement whose rows are handed out one after another.
pub trait Listing: Drop {
    /// A row as it is handed out.
    type Row: Drop;

    /// The meaning of a row.
    ghost Item: { Type 0 };

    /// The row stands for this.
    ghost means: { Item → Self.Row → Type 0 };

    /// The items that it lists, for these tables.
    ghost lists: { Self → Tables → List Item };

    /// Runs the statement, until the sink takes no more. It fails where the database call fails or
    /// memory runs out; what was handed out before is a beginning.
    fn run<S: Alter, K: Sink<Self::Row>>(
        self,
        conn: &mut Connection<S>,
        sink: &mut K,
    ) -> Result<(), Error>
        ensures hands { HandsRows S.Store conn.old conn.new result (taking means K.takes)
            (lists self) sink.old sink.new }
        ensures took { (rows : List Self.Row) × HandedOut K.takes rows sink.old sink.new }
        ensures survives { LeavesAll S.Store conn.old conn.new };
}

/// Returns the rows that a query shows.
fn shown_rows<S: Alter>(
    conn: &mut Connection<S>,
    sql: &str,
    params: &[ValueRef<'_>],
) -> Result<Vec<Row>, Error>
    ensures read { HasCleanDisk (state S.Store conn.new)
        → Queries sql.now (bound params.now) (state S.Store conn.old) (state S.Store conn.new)
        result (λ rows all. all.items ≡ rows) }
    ensures survives { Survives (state S.Store conn.old) (state S.Store conn.new)
        (CommitsShowing sql.now (bound params.now) (state S.Store conn.old)) }
{
    conn.query_all(sql, params)
}

/// Reads each row.
fn read_all<T: ReadRow + Drop>(alloc: Global, rows: &[Row]) -> Result<Vec<T>, Error>
    ensures { IfOk result (λ all. AreRead T.reads rows.now all.items) }
{
    let mut all = Vec::new(alloc);
    for row in rows {
        all.push(T::read(row)?)?;
    }
    Ok(all)
}

/// Returns the rows of a query.
pub(crate) fn all_rows<S: Alter, T: ReadRow + Drop>(
    conn: &mut Connection<S>,
    sql: &str,
    params: &[ValueRef<'_>],
) -> Result<Vec<T>, Error>
    ensures read { HasCleanDisk (state S.Store conn.new)
        → Queries sql.now (bound params.now) (state S.Store conn.old) (state S.Store conn.new)
        result (λ rows all. AreRead T.reads rows all.items) }
    ensures survives { Survives (state S.Store conn.old) (state S.Store conn.new)
        (CommitsShowing sql.now (bound params.now) (state S.Store conn.old)) }
{
    let rows = shown_rows(conn, sql, params)?;
    read_all(*rows.allocator(), &rows)
}

/// Returns the first row of a query.
pub(crate) fn first_row<S: Alter, T: ReadRow + Drop>(
    conn: &mut Connection<S>,
    sql: &str,
    params: &[ValueRef<'_>],
) -> Result<Option<T>, Error>
    ensures read { HasCleanDisk (state S.Store conn.new)
        → Queries sql.now (bound params.now) (state S.Store conn.old) (state S.Store conn.new)
        result (λ rows first. AreRead T.reads (take 1 rows) (option_to_list first)) }
    ensures survives { Survives (state S.Store conn.old) (state S.Store conn.new)
        (CommitsShowing sql.now (bound params.now) (state S.Store conn.old)) }
{
    let rows = shown_rows(conn, sql, params)?;
    match rows.first() {
        Some(row) => Ok(Some(T::read(row)?)),
        None => Ok(None),
    }
}

/// The law that memory returns what was written: what is claimed of a sound store holds of tables
/// in memory that are declared as a new station declares them.
pub fn memory_is_sound(_rows: &Rows<MemStore>)
    ensures { are_declared _rows.now ≡ true
        → (⟦<Rows<MemStore> as TableStore>⟧.view _rows.now).IsSound }
{
    memory_lies_in_order();
}

/// The law that files lie in order: what is claimed of a sound store holds of tables in files that
/// are declared as a new station declares them, while the disk has returned what was written.
pub fn files_are_sound<D: Disk>(_rows: &Rows<FileStore<D>>)
    ensures { are_declared _rows.now ≡ true → (connection_view over_files _rows.now.conn).IsSound
        → (⟦<Rows<FileStore<D>> as TableStore>⟧.view _rows.now).IsSound }
{
    files_lie_in_order::<D>();
}
