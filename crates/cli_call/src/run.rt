//! Running a command line over a connection, or over a keeper without one.
//! Reading the lists that a service is asked for again and again, before its first connection.
//! A call over a file, from its command to closing the file.

ghost use Rattle.cli_call.specs.Common.{ends, reached, taken_of, OnlyReads};
ghost use Rattle.cli_call.specs.Ran.{HasCalled, HasCalledStation, HasEndedCall, HasFlushed, HasRunGathered, HasRunKept, HasRunLine, HasCalledFile, HasClosed};

use crate::ended::{DeskFault, end, end_run, refuse_line};
use crate::migrating::run_migrate;
use cli_run::{Inputs, RunFault, Watched, is_migration, run_over};
use cli_words::Line;
use line_opening::open_station;
use sqlite::{Alter, Connection};
use station_core::{ByteIn, ByteOut, ExpectedQuery, Gathered, Keeper, Sink};
use station_days::Moment;
use station_files::FileBacked;
use station_schema::has_station;
use station_tables::{AttachFault, Station};
use std::alloc::Global;
use std::io::Read;

/// Runs the command of a command line over a keeper, at a moment: every command except `migrate`
/// and `serve`. Returns the exit status.
///
/// A fault is reported on `errors`, after the reasons why inputs can't be read, with status 3.
pub fn run_kept<K: Keeper, I: Inputs + Read, W: ByteOut, E: ByteOut>(
    alloc: Global,
    line: &Line<'_>,
    keeper: &mut K,
    reader: &mut I,
    output: &mut W,
    errors: &mut E,
    at: Moment,
) -> u8
    ensures { HasRunKept line.now K.keeping (ends I.remaining I.given I.turned W.taken E.taken) at
        (keeper.old, reached reader.old output.old errors.old)
        (keeper.new, reached reader.new output.new errors.new) result }
{
    let ended = run_over(alloc, keeper, line, reader, output, errors, at);
    end_run(errors, ended)
}

/// Flushes the output after a run, unless the output failed in it. Returns the output and the
/// result of the call: [`RunFault::Write`] if the rest can't be written, otherwise the run's.
fn flush_output<W: ByteOut>(
    gathered: Gathered<W>,
    ran: Result<bool, RunFault>,
) -> (W, Result<bool, RunFault>)
    ensures { HasFlushed (taken_of W.taken gathered) (W.taken result.0) ran result.1 }
{
    if matches!(ran, Err(RunFault::Write)) {
        return (gathered.give_up(), ran);
    }
    let (output, flushed) = gathered.end();
    match flushed {
        Ok(()) => (output, ran),
        Err(_fault) => (output, Err(RunFault::Write)),
    }
}

/// Runs the command of a command line over a keeper, like [`run_kept`], but buffers its output
/// while more of its input is at hand. The buffer is flushed before a fault is reported. Returns
/// the exit status and the output.
pub fn run_gathered<K: Keeper, I: Inputs + Read, W: ByteOut, E: ByteOut>(
    alloc: Global,
    line: &Line<'_>,
    keeper: &mut K,
    reader: &mut I,
    output: W,
    errors: &mut E,
    at: Moment,
) -> (u8, W)
    ensures { HasRunGathered line.now K.keeping (ends I.remaining I.given I.turned W.taken E.taken)
        at (keeper.old, reached reader.old output errors.old)
        (keeper.new, reached reader.new result.1 errors.new) result.0 }
{
    let mut gathered = Gathered::new(alloc, output);
    let ran = run_over(alloc, keeper, line, reader, &mut gathered, errors, at);
    let (output, ended) = flush_output(gathered, ran);
    (end_run(errors, ended), output)
}

/// Runs the command of a command line over its station, reports its end, and returns the
/// connection.
fn run_station<S: Alter, I: Inputs + Read, W: ByteOut, E: ByteOut>(
    alloc: Global,
    line: &Line<'_>,
    mut station: Station<S>,
    reader: &mut I,
    output: &mut W,
    errors: &mut E,
    at: Moment,
) -> (u8, Connection<S>)
    ensures { HasRunLine line.now ⟦<Station<S> as Keeper>⟧.keeping
        (ends I.remaining I.given I.turned W.taken E.taken) at station
        (reached reader.old output.old errors.old) (reached reader.new output.new errors.new)
        result }
{
    let status = run_kept(alloc, line, &mut station, reader, output, errors, at);
    (status, station.release())
}

/// Runs a command line over its station, or reports why there is none.
fn run_opened<S: Alter, I: Inputs + Read, W: ByteOut, E: ByteOut>(
    alloc: Global,
    line: &Line<'_>,
    opened: Result<Station<S>, (Connection<S>, AttachFault)>,
    reader: &mut I,
    output: &mut W,
    errors: &mut E,
    at: Moment,
) -> (u8, Connection<S>)
    ensures { HasEndedCall line.now ⟦<Station<S> as Keeper>⟧.keeping
        (ends I.remaining I.given I.turned W.taken E.taken) at opened
        (reached reader.old output.old errors.old) (reached reader.new output.new errors.new)
        result }
{
    match opened {
        Ok(station) => run_station(alloc, line, station, reader, output, errors, at),
        Err(none) => refuse_line(reader, output, errors, none),
    }
}

/// Runs the command of a command line over the station of a connection, or reports why there is
/// none.
fn call_station<S: Alter, I: Inputs + Read, W: ByteOut, E: ByteOut>(
    alloc: Global,
    line: &Line<'_>,
    conn: Connection<S>,
    reader: &mut I,
    output: &mut W,
    errors: &mut E,
    at: Moment,
) -> (u8, Connection<S>)
    ensures { HasCalledStation line.now ⟦<Station<S> as Keeper>⟧.keeping
        (ends I.remaining I.given I.turned W.taken E.taken) at conn
        (reached reader.old output.old errors.old) (reached reader.new output.new errors.new)
        result }
{
    let opened = open_station(alloc, line, conn);
    run_opened(alloc, line, opened, reader, output, errors, at)
}

/// Runs a command line over a connection, at a moment: every command except `serve`. Returns the
/// exit status and the connection.
///
/// `migrate` upgrades the tables from version 1 to version 2, and prints `ok 2`. A fault is
/// reported on `errors`, after the reasons why inputs can't be read, with status 3, or 4 if the
/// connection has no station for the line.
pub fn run_line<S: Alter, I: Inputs + Read, W: ByteOut, E: ByteOut>(
    alloc: Global,
    line: &Line<'_>,
    conn: Connection<S>,
    reader: &mut I,
    output: &mut W,
    errors: &mut E,
    at: Moment,
) -> (u8, Connection<S>)
    ensures { HasCalled line.now ⟦<Station<S> as Keeper>⟧.keeping
        (ends I.remaining I.given I.turned W.taken E.taken) at conn
        (reached reader.old output.old errors.old) (reached reader.new output.new errors.new)
        result }
{
    if is_migration(line) {
        run_migrate(alloc, conn, reader, output, errors)
    } else {
        call_station(alloc, line, conn, reader, output, errors, at)
    }
}

/// Takes no row.
#[derive(Drop)]
struct NoRows;

impl<Row: Drop> Sink<Row> for NoRows {
    ghost use Rattle.std.specs.Prelude.{◌≡◌, false};

    ghost takes = { λ _ _ go _. go ≡ false };

    fn take(&mut self, _row: Row) -> bool {
        false
    }
}

/// Reads the lists of `shed`, `irregularities` and `expected --open`, so that a station over a file
/// has their sets of waybills before they are asked for. A read that fails leaves the keeper as it
/// is, and the list is read when it is asked for.
pub(crate) fn fill_lists<K: Keeper>(keeper: &mut K)
    ensures { OnlyReads K.keeping keeper.old keeper.new }
{
    let mut sink = NoRows;
    let _shed = keeper.shed(&mut sink);
    let _irregular = keeper.irregular(&mut sink);
    let _expected = keeper.expected_by(&ExpectedQuery::Open, &mut sink);
}

/// The end of a call over a file.
#[derive(Drop)]
pub struct FileEnd<F, L> {
    /// The exit status.
    pub status: u8,
    /// True if the file's tables are declared as `init` declares them.
    pub is_declared: bool,
    /// The closed files, with the log copied into the database file; or their store, if a fault
    /// stopped the call or the log couldn't be copied.
    pub files: Result<F, L>,
}

/// Ends a call over a file that has this exit status. After a run without a fault, the log is
/// copied into the database file, and the files are returned. After any other run the log stays:
/// the store is returned, and the next opening reads the log.
///
/// Returns status 3 and the store, and reports the fault on `errors`, if the log can't be copied.
pub fn close_file<F, L, C: FileBacked<F, L>, E: ByteOut>(
    conn: C,
    status: u8,
    errors: &mut E,
) -> (u8, Result<F, L>)
    ensures { HasClosed C.backing conn E.taken (status, errors.old) (result.0, errors.new)
        result.1 }
{
    if status > 1 {
        return (status, Err(conn.give_back()));
    }
    match conn.into_files() {
        Ok(files) => (status, Ok(files)),
        Err(store) => {
            let status = end(errors, Err(DeskFault::Run(RunFault::Store)));
            (status, Err(store))
        }
    }
}

/// Runs a command line over a connection to a file, at a moment, and closes the file: every command
/// except `serve`. It calls `run_line` and then `close_file`.
pub fn run_file<F, L, S: Alter, I: Inputs + Read, W: ByteOut, E: ByteOut>(
    alloc: Global,
    line: &Line<'_>,
    conn: Connection<S>,
    reader: &mut I,
    output: &mut W,
    errors: &mut E,
    at: Moment,
) -> FileEnd<F, L>
where
    Connection<S>: FileBacked<F, L>,
    ensures { HasCalledFile ⟦<Connection<S> as FileBacked<F, L>>⟧.backing line.now
        ⟦<Station<S> as Keeper>⟧.keeping
        (ends I.remaining I.given I.turned W.taken E.taken) at conn
        (reached reader.old output.old errors.old, reached reader.new output.new errors.new)
        result }
{
    let (status, conn) = run_line(alloc, line, conn, reader, output, errors, at);
    let is_declared = has_station(&conn);
    let (status, files) = close_file(conn, status, errors);
    FileEnd {
        status,
        is_declared,
        files,
    }
}
