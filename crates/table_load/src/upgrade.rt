ghost use Rattle.std.specs.Prelude.{OnOk, OnErr};
ghost use Rattle.table_load.specs.Common.{HasCleanDisk, Survives, state, IsSettled, IsUndone, Alters, CommitsNothing, IsOldStation, IsOwn};
ghost use Rattle.table_load.specs.Upgrade.{Adds, IsInsideOld, IsUpgraded, Upgrades, Moves, MeansUpgraded, clearing, copying, filling, raising};

use sqlite::{Alter, Connection, Error};
use station_schema::{begin, commit, declarations, roll_back, shows_own};

/// Makes `waybill2` in a file of version 1, inside a transaction.
fn create_waybill2<S: Alter>(conn: &mut Connection<S>) -> Result<usize, Error>
    ensures made { HasCleanDisk (state S.Store conn.new) → IsInsideOld (state S.Store conn.old)
        → Adds (state S.Store conn.old) (state S.Store conn.new) result }
    ensures survives { Survives (state S.Store conn.old) (state S.Store conn.new)
        (λ _. ¬ IsInsideOld (state S.Store conn.old)) }
{
    conn.execute(declarations::WAYBILL2, &[])
}

/// Copies each row of `waybill` to `waybill2`, without a day.
fn copy_waybills<S: Alter>(conn: &mut Connection<S>) -> Result<usize, Error>
    ensures made { Alters S.Store conn.old conn.new result copying }
    ensures survives { CommitsNothing S.Store conn.old conn.new }
{
    conn.execute(
        "INSERT INTO waybill2 (awb, origin, destination, pieces, tenths, goods, notified, since) SELECT awb, origin, destination, pieces, tenths, goods, notified, 0 FROM waybill ORDER BY awb",
        &[],
    )
}

/// Removes all rows of `waybill`.
fn clear_waybills<S: Alter>(conn: &mut Connection<S>) -> Result<usize, Error>
    ensures made { Alters S.Store conn.old conn.new result clearing }
    ensures survives { CommitsNothing S.Store conn.old conn.new }
{
    conn.execute("DELETE FROM waybill", &[])
}

/// Sets the version to 2.
fn raise_version<S: Alter>(conn: &mut Connection<S>) -> Result<usize, Error>
    ensures made { Alters S.Store conn.old conn.new result raising }
    ensures survives { CommitsNothing S.Store conn.old conn.new }
{
    conn.execute("UPDATE station SET version = 2 WHERE id = 1", &[])
}

/// Fills `waybill2` from `waybill`, removes the rows of `waybill` and sets the version, inside a
/// transaction.
fn fill_waybill2<S: Alter>(conn: &mut Connection<S>) -> Result<(), Error>
    ensures made { Alters S.Store conn.old conn.new result filling }
    ensures survives { CommitsNothing S.Store conn.old conn.new }
{
    copy_waybills(conn)?;
    clear_waybills(conn)?;
    raise_version(conn)?;
    Ok(())
}

/// Upgrades the tables, inside a transaction.
fn move_waybills<S: Alter>(conn: &mut Connection<S>) -> Result<(), Error>
    ensures made { HasCleanDisk (state S.Store conn.new) → IsInsideOld (state S.Store conn.old)
        → Moves (state S.Store conn.old) (state S.Store conn.new) result }
    ensures survives { Survives (state S.Store conn.old) (state S.Store conn.new)
        (λ _. ¬ IsInsideOld (state S.Store conn.old)) }
{
    create_waybill2(conn)?;
    fill_waybill2(conn)?;
    Ok(())
}

/// Upgrades the tables and commits them.
fn commit_upgrade<S: Alter>(conn: &mut Connection<S>) -> Result<(), Error>
    ensures made { HasCleanDisk (state S.Store conn.new) → IsInsideOld (state S.Store conn.old)
        → Upgrades (state S.Store conn.old) (state S.Store conn.new) result }
    ensures survives { Survives (state S.Store conn.old) (state S.Store conn.new)
        (λ db. IsInsideOld (state S.Store conn.old)
        → MeansUpgraded (state S.Store conn.old).now.trees db) }
{
    move_waybills(conn)?;
    shows_own(conn);
    commit(conn)?;
    Ok(())
}

/// Upgrades the tables of a file from version 1 to version 2, in one transaction: `waybill2` gets
/// the waybills, without a day, and `waybill` is emptied. If it fails, the connection is outside a
/// transaction and, if it is open, at the last commit. It fails if a transaction is open, or the
/// store fails.
///
/// A crash leaves the tables unchanged or upgraded.
pub fn upgrade_tables<S: Alter>(conn: &mut Connection<S>) -> Result<(), Error>
    ensures made { HasCleanDisk (state S.Store conn.new) → IsOldStation (state S.Store conn.old).now
        → OnOk result (IsUpgraded (state S.Store conn.old) (state S.Store conn.new)) }
    ensures undone { HasCleanDisk (state S.Store conn.new)
        → IsOldStation (state S.Store conn.old).now → IsSettled (state S.Store conn.old)
        → OnErr result (IsUndone (state S.Store conn.old) (state S.Store conn.new)) }
    ensures survives { Survives (state S.Store conn.old) (state S.Store conn.new)
        (λ db. IsOldStation (state S.Store conn.old).now
        → MeansUpgraded (state S.Store conn.old).now.trees db) }
{
    begin(conn)?;
    match commit_upgrade(conn) {
        Ok(()) => Ok(()),
        Err(error) => {
            roll_back(conn);
            Err(error)
        }
    }
}
