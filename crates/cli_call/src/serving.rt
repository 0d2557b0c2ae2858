//! The service of a command line, over a keeper or over a file.

ghost use Rattle.std.specs.Prelude.{◌≡◌, true, false, List};
ghost use Rattle.cli_call.specs.Common.{Exchange};
ghost use Rattle.cli_call.specs.Ran.{server_fault, HasEndedService, HasListened, HasServedFile, HasServedKept, HasServedLine, HasServedStation, HasWarned};

use crate::ended::{DeskFault, end, refuse_line, tell_undeclared};
use crate::run::{FileEnd, close_file, fill_lists};
use cli_run::{RunFault, send_part};
use cli_words::Line;
use desk_server::{ServerFault, Setting, serve};
use line_opening::open_station;
use sqlite::{Alter, Connection};
use station_core::{ByteOut, Keeper};
use station_files::FileBacked;
use station_schema::has_station;
use station_tables::{AttachFault, Station};
use std::net::{Net, TcpListener};
use std::time::Clock;

/// A service: all or `count` of the connections of a listening socket, in a setting.
#[derive(Drop)]
pub struct Service<'a, N: Net, C: Clock> {
    pub net: &'a N,
    pub setting: Setting<'a, C>,
    pub listener: &'a TcpListener,
    pub count: Option<u32>,
}

fn server_fault(fault: ServerFault) -> DeskFault
    ensures { result ≡ server_fault fault }
{
    match fault {
        ServerFault::Listener => DeskFault::Run(RunFault::Read),
        ServerFault::Clock => DeskFault::Clock,
        ServerFault::Store => DeskFault::Run(RunFault::Store),
        ServerFault::Memory => DeskFault::Run(RunFault::Memory),
    }
}

/// Prints `listening`, and serves.
fn run_service<N: Net, C: Clock, K: Keeper, W: ByteOut, E: ByteOut>(
    service: &Service<'_, N, C>,
    keeper: &mut K,
    output: &mut W,
    errors: &mut E,
) -> Result<bool, DeskFault>
    ensures { (all : List Exchange) × HasListened K.keeping W.taken service.now.count all
        (keeper.old, output.old) (keeper.new, output.new) result }
{
    match send_part(output, b"listening\n") {
        Ok(()) => {}
        Err(fault) => return Err(DeskFault::Run(fault)),
    }
    match serve(
        service.net,
        &service.setting,
        keeper,
        errors,
        service.listener,
        service.count,
    ) {
        Ok(()) => Ok(true),
        Err(fault) => Err(server_fault(fault)),
    }
}

/// Prints `listening`, serves a keeper, and returns the exit status. A fault is reported on
/// `errors`, after the reasons of refused bodies.
pub fn serve_kept<N: Net, C: Clock, K: Keeper, W: ByteOut, E: ByteOut>(
    service: &Service<'_, N, C>,
    keeper: &mut K,
    output: &mut W,
    errors: &mut E,
) -> u8
    ensures { (all : List Exchange) × HasServedKept K.keeping (W.taken, E.taken) service.now.count
        all (keeper.old, (output.old, errors.old)) (keeper.new, (output.new, errors.new)) result }
{
    let ended = run_service(service, keeper, output, errors);
    end(errors, ended)
}

/// Writes the warning about the file of a command line unless `is_declared`.
fn warn<E: ByteOut>(line: &Line<'_>, is_declared: bool, errors: &mut E)
    ensures quiet { is_declared ≡ true → errors.new ≡ errors.old }
    ensures warns { is_declared ≡ false → HasWarned (E.taken errors.old) (E.taken errors.new) }
{
    if !is_declared {
        tell_undeclared(errors, line);
    }
}

/// Serves a station, after the warning about its file unless `is_declared` and a read of the lists
/// that are asked for most, and returns the status and the connection.
fn serve_station<N: Net, C: Clock, S: Alter, W: ByteOut, E: ByteOut>(
    service: &Service<'_, N, C>,
    line: &Line<'_>,
    is_declared: bool,
    mut station: Station<S>,
    output: &mut W,
    errors: &mut E,
) -> (u8, Connection<S>)
    ensures { (all : List Exchange) × HasServedStation ⟦<Station<S> as Keeper>⟧.keeping
        (W.taken, E.taken) service.now.count all is_declared station
        ((output.old, errors.old), (output.new, errors.new)) result }
{
    warn(line, is_declared, errors);
    fill_lists(&mut station);
    let status = serve_kept(service, &mut station, output, errors);
    (status, station.release())
}

/// Serves a station that was opened, or reports why there is none.
fn serve_opened<N: Net, C: Clock, S: Alter, W: ByteOut, E: ByteOut>(
    service: &Service<'_, N, C>,
    line: &Line<'_>,
    is_declared: bool,
    opened: Result<Station<S>, (Connection<S>, AttachFault)>,
    output: &mut W,
    errors: &mut E,
) -> (u8, Connection<S>)
    ensures { (all : List Exchange) × HasEndedService ⟦<Station<S> as Keeper>⟧.keeping
        (W.taken, E.taken) service.now.count all is_declared opened
        ((output.old, errors.old), (output.new, errors.new)) result }
{
    match opened {
        Ok(station) => serve_station(service, line, is_declared, station, output, errors),
        Err(none) => {
            let mut nothing = ();
            refuse_line(&mut nothing, output, errors, none)
        }
    }
}

/// Opens the station of a command line over a connection, and serves it. Returns the exit status
/// and the connection.
///
/// `errors` gets a warning if the tables aren't declared as `init` declares them, and the fault
/// that ended the service, or the reason why there is no station.
pub fn serve_line<N: Net, C: Clock, S: Alter, W: ByteOut, E: ByteOut>(
    service: &Service<'_, N, C>,
    line: &Line<'_>,
    conn: Connection<S>,
    output: &mut W,
    errors: &mut E,
) -> (u8, Connection<S>)
    ensures { HasServedLine line.now ⟦<Station<S> as Keeper>⟧.keeping (W.taken, E.taken)
        service.now.count conn ((output.old, errors.old), (output.new, errors.new)) result }
{
    let is_declared = has_station(&conn);
    let opened = open_station(service.setting.alloc, line, conn);
    serve_opened(service, line, is_declared, opened, output, errors)
}

/// Serves the station of a command line over a connection to a file, and closes the file. It calls
/// `serve_line` and then `close_file`.
pub fn serve_file<N: Net, C: Clock, F, L, S: Alter, W: ByteOut, E: ByteOut>(
    service: &Service<'_, N, C>,
    line: &Line<'_>,
    conn: Connection<S>,
    output: &mut W,
    errors: &mut E,
) -> FileEnd<F, L>
where
    Connection<S>: FileBacked<F, L>,
    ensures { HasServedFile ⟦<Connection<S> as FileBacked<F, L>>⟧.backing line.now
        ⟦<Station<S> as Keeper>⟧.keeping (W.taken, E.taken) service.now.count conn
        ((output.old, errors.old), (output.new, errors.new)) result }
{
    let (status, conn) = serve_line(service, line, conn, output, errors);
    let is_declared = has_station(&conn);
    let (status, files) = close_file(conn, status, errors);
    FileEnd {
        status,
        is_declared,
        files,
    }
}
