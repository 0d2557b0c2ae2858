//! Upgrades of files from version 1 to version 2.

ghost use Rattle.std.specs.Prelude.{◌≡◌, ◌≢◌, Err, IsTrue, IfOk, IfErr};
ghost use Rattle.station_tables.specs.Common.{read_as, First, IsSettled, IsUndone, IsOldOwn, LiesInOrder, IsOldStation, Database, state, HasCleanDisk, Survives, IsUnfit, State, MeansUpgraded};
ghost use Rattle.station_tables.specs.Attached.{IsJudged, IsOldStateIn, RefusesAs, old_name, HasMigrated};
ghost use Rattle.station_tables.specs.Called.{HasMoved};

use crate::attaching::{AttachFault, breakdown, judge};
use sqlite::{Alter, Connection};
use station_schema::{shows_old_station, shows_own};
use std::alloc::Global;
use table_audits::{FoundState, TableName, Unfit};
use table_load::{FileVersion, upgrade_tables};

fn old_name(name: TableName) -> TableName
    ensures { result ≡ old_name name }
{
    match name {
        TableName::Waybill2 => TableName::Waybill,
        name => name,
    }
}

/// Returns the fault for a database that isn't a station's of version 1.
fn old_fault(unfit: Unfit) -> AttachFault
    ensures refuses { (db : Database) → IsUnfit (read_as First db) unfit
        → RefusesAs First db result }
    ensures never { result ≢ AttachFault.Occupied }
{
    match unfit {
        Unfit::NoStation => AttachFault::NoStation,
        Unfit::OtherVersion(version) => AttachFault::Version(version),
        Unfit::Unlawful(name) => AttachFault::Unlawful(old_name(name)),
    }
}

/// An open connection at rest shows the tables of version 1 if a station of that version wrote its
/// trees.
fn shows_old_own<S: Alter>(conn: &Connection<S>)
    ensures { IsOldOwn (state S.Store conn.now).now.trees → IsTrue (state S.Store conn.now).is_open
        → (state S.Store conn.now).now ≡ (state S.Store conn.now).committed → LiesInOrder S.Store
        → IsOldStation (state S.Store conn.now).now }
{
    shows_old_station(conn);
}

/// Upgrades the tables of a file of version 1.
fn upgrade<S: Alter>(mut conn: Connection<S>) -> Result<Connection<S>, (Connection<S>, AttachFault)>
    ensures clean { IfOk result (λ new. HasCleanDisk (state S.Store new)
        → HasCleanDisk (state S.Store conn)) }
    ensures moved { IfOk result (λ new. HasCleanDisk (state S.Store new)
        → IsOldStation (state S.Store conn).now
        → HasMigrated (state S.Store conn).now (state S.Store new)) }
    ensures fault { IfErr result (λ e. e.1 ≡ AttachFault.Store) }
    ensures undone { IfErr result (λ e. HasCleanDisk (state S.Store e.0)
        → IsOldStation (state S.Store conn).now → IsSettled (state S.Store conn)
        → IsUndone (state S.Store conn) (state S.Store e.0)) }
    ensures survives { IfErr result (λ e. Survives (state S.Store conn) (state S.Store e.0)
        (λ db. IsOldStation (state S.Store conn).now
        → MeansUpgraded (state S.Store conn).now.trees db)) }
{
    match upgrade_tables(&mut conn) {
        Ok(()) => {
            shows_own(&conn);
            Ok(conn)
        }
        Err(_) => Err((conn, AttachFault::Store)),
    }
}

/// Upgrades a file that was audited as version 1, or returns the reason why it can't.
fn settle<S: Alter>(
    conn: Connection<S>,
    judged: Result<FoundState, Unfit>,
) -> Result<Connection<S>, (Connection<S>, AttachFault)>
    ensures clean { IfOk result (λ new. HasCleanDisk (state S.Store new)
        → HasCleanDisk (state S.Store conn)) }
    ensures was { IsJudged (read_as First (state S.Store conn).now) judged
        → IfOk result (λ _. (s : State) × IsOldStateIn (state S.Store conn).now s) }
    ensures moved { IfOk result (λ new. HasCleanDisk (state S.Store new)
        → IsOldStation (state S.Store conn).now
        → HasMigrated (state S.Store conn).now (state S.Store new)) }
    ensures refused { IsJudged (read_as First (state S.Store conn).now) judged
        → IfErr result (λ e. RefusesAs First (state S.Store conn).now e.1) }
    ensures never { IfErr result (λ e. e.1 ≢ AttachFault.Occupied) }
    ensures undone { IfErr result (λ e. HasCleanDisk (state S.Store e.0)
        → IsOldStation (state S.Store conn).now → IsSettled (state S.Store conn)
        → IsUndone (state S.Store conn) (state S.Store e.0)) }
    ensures unmoved { IfErr result (λ e. e.1 ≢ AttachFault.Store → IsSettled (state S.Store conn)
        → IsUndone (state S.Store conn) (state S.Store e.0)) }
    ensures survives { IfErr result (λ e. Survives (state S.Store conn) (state S.Store e.0)
        (λ db. IsOldStation (state S.Store conn).now
        → MeansUpgraded (state S.Store conn).now.trees db)) }
    ensures spares { IfErr result (λ e. e.1 ≢ AttachFault.Store
        → Survives (state S.Store conn) (state S.Store e.0) (λ _. ⊥)) }
    ensures only { IsJudged (read_as First (state S.Store conn).now) judged
        → ¬ ((s : State) × IsOldStateIn (state S.Store conn).now s)
        → IfErr result (λ e. Survives (state S.Store conn) (state S.Store e.0) (λ _. ⊥)) }
{
    match judged {
        Ok(_) => upgrade(conn),
        Err(unfit) => Err((conn, old_fault(unfit))),
    }
}

/// Upgrades a file from version 1 to version 2 in one transaction: `waybill2` gets the waybills,
/// without their days, `waybill` is emptied, and the version is raised. Before that, each table is
/// read in full and audited as version 1.
///
/// # Errors
///
/// The connection is returned with each fault. After any fault except `Store` the file is
/// unchanged. A crash or a `Store` leaves it unchanged or upgraded, with the same state: call
/// `migrate` again, which returns `Version(2)` if the upgrade was done.
///
/// - [`AttachFault::NoStation`]: the file has no station.
/// - [`AttachFault::Version`]: the version isn't 1.
/// - [`AttachFault::Unlawful`]: the first table that is missing or unlawful.
/// - [`AttachFault::Memory`]: memory ran out in the audit.
/// - [`AttachFault::Store`]: the store failed, or a transaction was open.
pub fn migrate<S: Alter>(
    alloc: Global,
    mut conn: Connection<S>,
) -> Result<Connection<S>, (Connection<S>, AttachFault)>
    ensures { HasMoved S.Store conn result }
{
    shows_old_own(&conn);
    if !conn.is_autocommit() {
        return Err((conn, AttachFault::Store));
    }
    if !station_schema::is_live(&mut conn) {
        return Err((conn, AttachFault::Store));
    }
    match judge(alloc, &mut conn, FileVersion::First) {
        Ok(judged) => settle(conn, judged),
        Err(error) => {
            let fault = breakdown(&error);
            Err((conn, fault))
        }
    }
}
