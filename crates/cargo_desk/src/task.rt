//! Running a command line over its station, in memory or in a file.

use crate::files::{make_file, open_file, tell_disk, tell_help, tell_unopened};
use cli_call::{
    DeskFault, FileEnd, Service, end, run_file, run_gathered, serve_file, serve_kept,
    tell_undeclared,
};
use cli_run::{Feed, RunFault, airport_of_line, is_migration, is_opening};
use cli_words::{Line, LineCommand};
use desk_server::Unblocked;
use sqlite::{Alter, Connection, File, FileStore};
use sqlite_disk::Files;
use state_store::MapState;
use station_core::{ByteOut, Counted, InputReader, Keeper};
use station_days::Moment;
use station_engine::StoredStation;
use station_files::{Connected, FileBacked};
use std::io::IsTerminal;

/// The task of a command line.
#[derive(Drop)]
pub enum Task<'a, R> {
    /// Run its command on the inputs of a reader, at a moment.
    Run { reader: R, at: Moment },
    /// Run the service.
    Serve(Service<'a, HostRuntime, HostRuntime>),
}

/// Ends a call on standard error.
pub fn end_call(rt: &HostRuntime, ended: Result<bool, DeskFault>) -> u8 {
    end(&mut Counted::new(rt.stderr()), ended)
}

/// Ends a call with a run's fault.
pub fn faulted(rt: &HostRuntime, fault: RunFault) -> u8 {
    end_call(rt, Err(DeskFault::Run(fault)))
}

/// Runs a command line over a station in memory. Lines of a stock list are buffered while another
/// row is at hand; all other output is written before the next input acts.
fn run_keeper<K: Keeper, R: InputReader + Drop>(
    rt: &HostRuntime,
    line: &Line<'_>,
    keeper: &mut K,
    reader: R,
    at: Moment,
) -> u8 {
    let mut errors = Counted::new(rt.stderr());
    let mut feed = Feed::new(reader);
    let (status, _output) = run_gathered(
        rt.alloc(),
        line,
        keeper,
        &mut feed,
        Counted::new(rt.stdout()),
        &mut errors,
        at,
    );
    status
}

/// Writes, to a person at a terminal, that nothing of what the command changes is kept.
fn tell_unkept(rt: &HostRuntime, command: &LineCommand<'_>) {
    let changes = matches!(
        command,
        LineCommand::Act { .. } | LineCommand::Acts | LineCommand::Stock | LineCommand::Take(_)
    );
    if changes && rt.stderr().is_terminal() {
        let _told = eprint!(rt;
            "nothing of this is kept: --db FILE before the command names a file\n"
        );
    }
}

/// Does a command line's task over a new station in memory.
fn run_in_memory<R: InputReader + Drop>(
    rt: &HostRuntime,
    line: &Line<'_>,
    task: Task<'_, R>,
) -> u8 {
    let alloc = rt.alloc();
    let state = MapState::new(alloc, airport_of_line(line));
    let mut station = StoredStation::over(alloc, state);
    match task {
        Task::Run { reader, at } => {
            tell_unkept(rt, &line.command);
            run_keeper(rt, line, &mut station, reader, at)
        }
        Task::Serve(service) => {
            let mut output = Counted::new(rt.stdout());
            let mut errors = Counted::new(Unblocked::new(rt, alloc, rt.stderr()));
            serve_kept(&service, &mut station, &mut output, &mut errors)
        }
    }
}

/// Warns if the tables of the file are declared differently.
fn warn_undeclared<F, L, E: ByteOut>(line: &Line<'_>, ended: &FileEnd<F, L>, errors: &mut E) {
    if ended.status <= 1 && !ended.is_declared && !is_opening(line) {
        tell_undeclared(errors, line);
    }
}

/// The exit status of a call whose file has no station for its command.
const NO_STATION: u8 = 4;

/// Returns the exit status of a call whose file was closed. If the disk failed, a line says how; if
/// the file has no station for the command, one says where to find what to do.
fn end_file(rt: &HostRuntime, path: &str, ended: FileEnd<Files<File>, FileStore<File>>) -> u8 {
    if ended.status == NO_STATION {
        tell_help(rt, path);
    }
    if let Err(store) = &ended.files {
        tell_disk(rt, path, store.tally());
    }
    ended.status
}

/// Does a command line's task over a connection to a file, and closes the file. Each answer is
/// written before the next input acts.
fn run_in_file<F: Drop, L: Drop, S: Alter, R: InputReader + Drop>(
    rt: &HostRuntime,
    line: &Line<'_>,
    conn: Connection<S>,
    task: Task<'_, R>,
) -> FileEnd<F, L>
where
    Connection<S>: FileBacked<F, L>,
{
    let alloc = rt.alloc();
    let mut output = Counted::new(rt.stdout());
    match task {
        Task::Run { reader, at } => {
            let mut errors = Counted::new(rt.stderr());
            let mut feed = Feed::new(reader);
            let ended = run_file(alloc, line, conn, &mut feed, &mut output, &mut errors, at);
            warn_undeclared(line, &ended, &mut errors);
            ended
        }
        Task::Serve(service) => {
            let mut errors = Counted::new(Unblocked::new(rt, alloc, rt.stderr()));
            serve_file(&service, line, conn, &mut output, &mut errors)
        }
    }
}

/// Does a command line's task over its station: in memory without a file.
pub fn run_over<R: InputReader + Drop>(rt: &HostRuntime, line: &Line<'_>, task: Task<'_, R>) -> u8 {
    let Some(path) = line.db else {
        return run_in_memory(rt, line, task);
    };
    let opened = if is_opening(line) {
        make_file(rt, path)
    } else {
        open_file(rt, path, is_migration(line))
    };
    let ended = match opened {
        Ok(Connected::Whole(conn)) => run_in_file(rt, line, conn, task),
        Ok(Connected::Beside(conn)) => run_in_file(rt, line, conn, task),
        Err(fault) => {
            let status = end_call(rt, Err(fault.ended()));
            tell_unopened(rt, path, fault);
            return status;
        }
    };
    end_file(rt, path, ended)
}
