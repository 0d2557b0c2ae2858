ghost use Rattle.std.specs.Prelude.{◌≡◌, ◌↔◌, true, IsTrue, IfOk, Err};
ghost use Rattle.station_schema.specs.Common.{state, over_memory, over_files, HasCleanDisk, Survives, IsUnchanged};
ghost use Rattle.station_schema.specs.Schema.{old_schema, station_schema, Begins, Commits, Stops, IsUndone};
ghost use Rattle.station_schema.specs.Tables.{IsStation, IsOldStation};
ghost use Rattle.station_schema.specs.Connection.{IsOwn, IsOldOwn, LiesInOrder, connection_view, IsVacant};
ghost use Rattle.station_schema.specs.Store.{IsAtRest};

use crate::names::is_declared;
use sqlite::{Alter, Connection, Error, ErrorCode, MemStore};
use sqlite_disk::Disk;
use std::alloc::{AllocError, Global};

/// Returns whether the tables of a connection are declared as a new station declares them. It runs
/// no statement and allocates nothing.
pub fn has_station<S: Alter>(conn: &Connection<S>) -> bool
    ensures declared { IsTrue result ↔ (state S.Store conn.now).now.schema ≡ station_schema }
    ensures own { IsTrue (state S.Store conn.now).is_open
        → IsTrue result ↔ IsOwn (state S.Store conn.now).now.trees }
    ensures station { IsTrue result → IsTrue (state S.Store conn.now).is_open
        → (state S.Store conn.now).now ≡ (state S.Store conn.now).committed → LiesInOrder S.Store
        → IsStation (state S.Store conn.now).now }
{
    is_declared(conn.schema())
}

/// An open connection at rest, with the schema of a station of version 1 or with trees that allow
/// no other schema, shows the tables of one.
pub fn shows_old_station<S: Alter>(conn: &Connection<S>)
    ensures schema { IsTrue (state S.Store conn.now).is_open
        → IsOldOwn (state S.Store conn.now).now.trees
        → (state S.Store conn.now).now.schema ≡ old_schema }
    ensures own { IsTrue (state S.Store conn.now).is_open
        → (state S.Store conn.now).now.schema ≡ old_schema
        → IsOldOwn (state S.Store conn.now).now.trees }
    ensures station { (state S.Store conn.now).now.schema ≡ old_schema
        → IsTrue (state S.Store conn.now).is_open
        → (state S.Store conn.now).now ≡ (state S.Store conn.now).committed → LiesInOrder S.Store
        → IsOldStation (state S.Store conn.now).now }
{
    let _ = conn.schema();
}

/// Returns a connection to an empty store in memory.
pub fn open_memory(alloc: Global) -> Result<Connection<MemStore>, AllocError>
    ensures vacant { IfOk result (λ conn. IsVacant over_memory conn) }
    ensures open { IfOk result (λ conn. (connection_view over_memory conn).is_open ≡ true) }
    ensures rests { IfOk result (λ conn. IsAtRest (connection_view over_memory conn)) }
{
    Connection::open_in_memory(alloc)
}

/// The rows of tables in memory are in order.
pub fn memory_lies_in_order()
    ensures { LiesInOrder over_memory }
{}

/// The rows of tables in files are in order, on every disk.
pub fn files_lie_in_order<D: Disk>()
    ensures { LiesInOrder (over_files {g = D.Disk}) }
{}

/// Begins a transaction. On error none was begun, or the open one was rolled back.
pub fn begin<S: Alter>(conn: &mut Connection<S>) -> Result<usize, Error>
    ensures begun { HasCleanDisk (state S.Store conn.new)
        → Begins (state S.Store conn.old) (state S.Store conn.new) result }
    ensures survives { Survives (state S.Store conn.old) (state S.Store conn.new) (λ _. ⊥) }
{
    conn.execute("BEGIN", &[])
}

/// Commits the transaction. A crash during the call leaves the last commit or what the transaction
/// wrote.
pub fn commit<S: Alter>(conn: &mut Connection<S>) -> Result<usize, Error>
    ensures done { HasCleanDisk (state S.Store conn.new)
        → Commits (state S.Store conn.old) (state S.Store conn.new) result }
    ensures survives { Survives (state S.Store conn.old) (state S.Store conn.new)
        (λ db. db ≡ (state S.Store conn.old).now.trees) }
{
    conn.execute("COMMIT", &[])
}

/// Rolls back the transaction, if one is open. If the connection is open, it then shows the last
/// commit.
pub fn roll_back<S: Alter>(conn: &mut Connection<S>)
    ensures undone { HasCleanDisk (state S.Store conn.new)
        → IsUndone (state S.Store conn.old) (state S.Store conn.new) }
    ensures survives { Survives (state S.Store conn.old) (state S.Store conn.new) (λ _. ⊥) }
{
    if conn.is_autocommit() {
        return;
    }
    let _ = conn.execute("ROLLBACK", &[]);
}

/// Returns whether a statement was refused because no transaction is open.
fn is_refused(done: &Result<usize, Error>) -> bool
    ensures { IsTrue result → done.now ≡ Err (Error.SqliteFailure ErrorCode.TransactionState) }
{
    matches!(done, Err(Error::SqliteFailure(ErrorCode::TransactionState)))
}

/// Returns whether the connection is usable and outside a transaction. It tries to roll back: an
/// open connection refuses that without a transaction, and nothing happens. An open transaction is
/// rolled back, and the result is false. Once the statement is compiled, it allocates nothing.
pub fn is_live<S: Alter>(conn: &mut Connection<S>) -> bool
    ensures same { IsTrue result → HasCleanDisk (state S.Store conn.new)
        → IsUnchanged (state S.Store conn.old) (state S.Store conn.new) }
    ensures stops { HasCleanDisk (state S.Store conn.new)
        → Stops (state S.Store conn.old) (state S.Store conn.new) }
    ensures survives { Survives (state S.Store conn.old) (state S.Store conn.new) (λ _. ⊥) }
{
    let done = conn.execute("ROLLBACK", &[]);
    is_refused(&done)
}
