ghost use Rattle.std.specs.Prelude.{◌≡◌, false, IsTrue, OnOk, OnErr};
ghost use Rattle.station_schema.specs.Common.{HasCleanDisk, KeepsCommit, Survives, state};
ghost use Rattle.station_schema.specs.Schema.{IsSettled, IsUndone, IsOneStep};

use crate::declarations::DECLARATIONS;
use sqlite::{Alter, Connection, Error, Transaction, params};

/// Makes the tables and the index inside a transaction.
fn declare<S: Alter>(tables: &mut Transaction<'_, S>) -> Result<(), Error>
    ensures same_reference { tables.new.conn.ghost_name ≡ tables.old.conn.ghost_name }
    ensures kept { HasCleanDisk (state S.Store tables.new.conn.now)
        → KeepsCommit (state S.Store tables.old.conn.now) (state S.Store tables.new.conn.now) }
    ensures inside { HasCleanDisk (state S.Store tables.new.conn.now)
        → OnOk result ((state S.Store tables.new.conn.now).in_transaction
        ≡ (state S.Store tables.old.conn.now).in_transaction) }
    ensures survives { Survives (state S.Store tables.old.conn.now)
        (state S.Store tables.new.conn.now) (λ _. ⊥) }
{
    for text in DECLARATIONS {
        tables.execute_batch(text)?;
    }
    Ok(())
}

/// Makes the tables of a new station, with other tables in the database, in one transaction. If it
/// fails, the connection is outside a transaction and, if it is open, at the last commit.
pub fn create_beside<S: Alter>(conn: &mut Connection<S>, airport: &str) -> Result<(), Error>
    requires { conn.old.in_transaction ≡ false }
    ensures undone { HasCleanDisk (state S.Store conn.new) → IsSettled (state S.Store conn.old)
        → OnErr result (IsUndone (state S.Store conn.old) (state S.Store conn.new)) }
    ensures rests { HasCleanDisk (state S.Store conn.new)
        → OnOk result (IsTrue (state S.Store conn.new).is_open
        × IsSettled (state S.Store conn.new)) }
    ensures step { IsOneStep (state S.Store conn.old) (state S.Store conn.new) }
{
    let mut tables = conn.transaction();
    declare(&mut tables)?;
    tables.execute(
        "INSERT INTO station (id, airport, version, confirmed) VALUES (1, ?1, 2, 0)",
        params![airport],
    )?;
    tables.commit()
}
