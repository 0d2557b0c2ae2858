//! The upgrade of a file.
ghost use Rattle.cli_call.specs.Common.{reached};
ghost use Rattle.cli_call.specs.Ended.{HasEndedMigration, HasMigrated, HasToldMoved, HasToldVersion};

use crate::ended::{end_run, refuse_line};
use cli_run::{RunFault, send_part};
use sqlite::{Alter, Connection};
use station_core::ByteOut;
use station_tables::{AttachFault, migrate};
use std::alloc::Global;

/// Writes the line of a file that is of version 2 now.
fn tell_version<W: ByteOut>(output: &mut W) -> Result<bool, RunFault>
    ensures { HasToldVersion (W.taken output.old) (W.taken output.new) result }
{
    match send_part(output, b"ok 2\n") {
        Ok(()) => Ok(true),
        Err(fault) => Err(fault),
    }
}

/// Writes that the tables are of version 2, and returns the connection.
fn tell_moved<S: Alter, I, W: ByteOut, E: ByteOut>(
    conn: Connection<S>,
    _reader: &mut I,
    output: &mut W,
    errors: &mut E,
) -> (u8, Connection<S>)
    ensures { HasToldMoved W.taken E.taken conn (reached _reader.old output.old errors.old)
        (reached _reader.new output.new errors.new) result }
{
    let ended = tell_version(output);
    let status = end_run(errors, ended);
    (status, conn)
}

/// Writes the outcome of an upgrade, and returns the connection.
fn end_migration<S: Alter, I, W: ByteOut, E: ByteOut>(
    migrated: Result<Connection<S>, (Connection<S>, AttachFault)>,
    reader: &mut I,
    output: &mut W,
    errors: &mut E,
) -> (u8, Connection<S>)
    ensures { HasEndedMigration W.taken E.taken migrated (reached reader.old output.old errors.old)
        (reached reader.new output.new errors.new) result }
{
    match migrated {
        Ok(conn) => tell_moved(conn, reader, output, errors),
        Err(none) => refuse_line(reader, output, errors, none),
    }
}

/// Runs `migrate`: upgrades the tables of a connection from version 1 to version 2, and then prints
/// `ok 2`, or reports the fault. Returns the exit status and the connection. Nothing is read.
pub(crate) fn run_migrate<S: Alter, I, W: ByteOut, E: ByteOut>(
    alloc: Global,
    conn: Connection<S>,
    reader: &mut I,
    output: &mut W,
    errors: &mut E,
) -> (u8, Connection<S>)
    ensures { HasMigrated S.Store W.taken E.taken conn (reached reader.old output.old errors.old)
        (reached reader.new output.new errors.new) result }
{
    let migrated = migrate(alloc, conn);
    end_migration(migrated, reader, output, errors)
}
