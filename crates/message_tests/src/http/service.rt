//! The service on a port of this machine, with its clients, in one thread: the connections of a
//! case wait in the listener's queue.
mod clock;
mod failing;

use crate::http::desk::taken;
use crate::http::ends::Taken;
use clock::Stepped;
use desk_server::{ServerFault, Setting, Zone, listen, serve};
use failing::Failing;
use imp_fields::Airport;
use plain_station::PlainStation;
use station_core::{Counted, Keeper};
use std::cell::Cell;
use std::io;
use std::io::{ErrorKind, Write};
use std::net::{Shutdown, SocketAddr, TcpListener, TcpStream};
use std::time::{Duration, Instant};

/// 2026-01-12 10:30, in seconds since 1970-01-01.
const MORNING: u64 = 1_768_213_800;

const TAKE_IN: &str =
    "POST /v1/act/take-in HTTP/1.1\r\nHost: desk\r\nRequest-Key: k1\r\nContent-Length: 48\r\n\r\n\
{\"count\":10,\"prefix\":\"020\",\"serial\":\"1234567\"}  ";

const ISSUE: &str =
    "POST /v1/act/issue HTTP/1.1\r\nHost: desk\r\nRequest-Key: k2\r\nContent-Length: 62\r\n\r\n\
{\"agent\":\"ACME\",\"count\":3,\"prefix\":\"020\",\"serial\":\"1234570\"}  ";

const HOLDER: &str = "GET /v1/stock/020-12345675 HTTP/1.1\r\nHost: desk\r\n\r\n";

const STOCK: &str = "GET /v1/reports/stock HTTP/1.1\r\nHost: desk\r\n\r\n";

/// A command without one of its fields; in the name of another, a byte that isn't printable.
const BAD_BODY: &str =
    "POST /v1/act/issue HTTP/1.1\r\nRequest-Key: k3\r\nContent-Length: 16\r\n\r\n{\"a\u{7f}gnt\":\"ACME\"}";

/// The same without a key: its body isn't read.
const BAD_KEY: &str =
    "POST /v1/act/issue HTTP/1.1\r\nContent-Length: 16\r\n\r\n{\"a\u{7f}gnt\":\"ACME\"}";

/// A waybill with a wrong check digit.
const BAD_TELEGRAM: &str =
    "POST /v1/telegrams HTTP/1.1\r\nContent-Length: 34\r\n\r\nFWB/16\n020-12345674FRAJFK/T10K100\n";

/// A manifest of a day that no year has, which only the station refuses.
const BAD_DATE: &str =
    "POST /v1/telegrams HTTP/1.1\r\nContent-Length: 68\r\n\r\nFFM/8\n1/BA902/31FEB/LHR\nFRA\n\
020-12345675LHRFRA/T10K100.0/CARGO\nLAST\n";

/// The check of the same body: its answer has the reason.
const CHECK: &str =
    "POST /v1/check/issue HTTP/1.1\r\nContent-Length: 16\r\n\r\n{\"a\u{7f}gnt\":\"ACME\"}";

/// Returns a clock that never advances.
fn still(shown: u64) -> Stepped {
    Stepped {
        shown,
        gone: Cell::new(0),
        step: 0,
    }
}

fn ask(rt: &HostRuntime, address: SocketAddr, request: &str) -> io::Result<TcpStream> {
    let client = TcpStream::connect(rt, address)?;
    let mut asking = &client;
    asking.write_all(request.as_bytes())?;
    client.shutdown(Shutdown::Write)?;
    Ok(client)
}

fn tell(rt: &HostRuntime, client: TcpStream) -> io::Result<()> {
    let text = match io::read_to_string(rt.alloc(), client) {
        Ok(text) => text,
        Err(_) => String::new(rt.alloc()),
    };
    if text.is_empty() {
        return println!(rt; "no answer");
    }
    for line in text.lines() {
        println!(rt; "| {line}")?;
    }
    Ok(())
}

/// Prints what was written to standard error.
fn tell_errors(rt: &HostRuntime, errors: Counted<Taken>) -> io::Result<()> {
    let Taken { bytes, .. } = errors.into_inner();
    for line in std::str::from_utf8(&bytes).unwrap_or("no text").lines() {
        println!(rt; "! {line}")?;
    }
    Ok(())
}

/// Serves a number of connections, and closes the listener.
fn serve_all<K: Keeper>(
    rt: &HostRuntime,
    clock: &Stepped,
    station: &mut K,
    errors: &mut Counted<Taken>,
    listener: TcpListener,
    count: usize,
) -> io::Result<Result<(), ServerFault>> {
    let Some(zone) = Zone::read("UTC0") else {
        return Err(io::Error::from(ErrorKind::InvalidInput));
    };
    let count = u32::try_from(count).ok();
    let setting = Setting {
        alloc: rt.alloc(),
        clock,
        zone: &zone,
    };
    Ok(serve(rt, &setting, station, errors, &listener, count))
}

fn play<K: Keeper>(
    rt: &HostRuntime,
    name: &str,
    clock: &Stepped,
    station: &mut K,
    requests: &[&str],
) -> io::Result<()> {
    let errors = taken(rt.alloc(), usize::MAX);
    play_over(rt, name, clock, station, errors, requests)
}

fn play_over<K: Keeper>(
    rt: &HostRuntime,
    name: &str,
    clock: &Stepped,
    station: &mut K,
    errors: Taken,
    requests: &[&str],
) -> io::Result<()> {
    println!(rt; "{name}")?;
    let mut errors = Counted::new(errors);
    let listener = listen(rt, 0)?;
    let address = listener.local_addr()?;
    let mut clients = Vec::new(rt.alloc());
    for request in requests {
        clients.push(ask(rt, address, request)?)?;
    }
    let ended = serve_all(rt, clock, station, &mut errors, listener, requests.len())?;
    for client in clients {
        tell(rt, client)?;
    }
    tell_errors(rt, errors)?;
    println!(rt; "{ended:?}")
}

fn long_request(rt: &HostRuntime, tens: u32) -> io::Result<String> {
    let mut request = format!(in rt.alloc();
        "POST /v1/telegrams HTTP/1.1\r\nContent-Length: {tens}0\r\n\r\n"
    )?;
    for _ in 0..tens {
        request.push_str("0123456789")?;
    }
    Ok(request)
}

/// Plays eight silent connections before one that asks. They are given up together, so the service
/// ends within eight seconds.
fn play_silent(rt: &HostRuntime, station: &mut PlainStation) -> io::Result<()> {
    println!(rt; "eight connections that send nothing")?;
    let listener = listen(rt, 0)?;
    let address = listener.local_addr()?;
    let mut clients = Vec::new(rt.alloc());
    for _ in 0..8 {
        clients.push(TcpStream::connect(rt, address)?)?;
    }
    clients.push(ask(rt, address, HOLDER)?)?;
    let begun = Instant::now(rt)?;
    let mut errors = Counted::new(taken(rt.alloc(), 0));
    let count = clients.len();
    let ended = serve_all(rt, &still(MORNING), station, &mut errors, listener, count)?;
    let is_soon = begun.elapsed(rt)? < Duration::from_secs(8);
    for client in clients {
        tell(rt, client)?;
    }
    println!(rt; "{}", if is_soon { "soon" } else { "late" })?;
    println!(rt; "{ended:?}")
}

/// Plays requests that time out, with clocks that advance at each reading.
fn play_slow(rt: &HostRuntime, station: &mut PlainStation) -> io::Result<()> {
    let late = Stepped {
        step: 5,
        ..still(MORNING)
    };
    play(
        rt,
        "a request that takes too long",
        &late,
        station,
        &[HOLDER],
    )?;
    let slow = Stepped {
        step: 5,
        ..still(MORNING)
    };
    let long = long_request(rt, 6000)?;
    let longs = [long.as_str()];
    play(
        rt,
        "a request whose end takes too long",
        &slow,
        station,
        &longs,
    )
}

/// Plays bodies that are refused, once with a standard error that fails.
fn play_refused(rt: &HostRuntime, station: &mut PlainStation) -> io::Result<()> {
    let clock = still(MORNING);
    let bad = [BAD_BODY, BAD_KEY, BAD_TELEGRAM, BAD_DATE, CHECK];
    play(rt, "bodies that are refused", &clock, station, &bad)?;
    let full = Taken {
        room: 0,
        ..taken(rt.alloc(), usize::MAX)
    };
    let name = "the same, with a standard error that fails";
    play_over(rt, name, &clock, station, full, &bad)
}

/// Plays a store that fails at its second input: 503, and the service ends.
fn play_failing(rt: &HostRuntime, here: Airport) -> io::Result<()> {
    let mut station = Failing::new(PlainStation::new(rt.alloc(), here), 1);
    let day = [TAKE_IN, ISSUE, HOLDER];
    play(
        rt,
        "a store that fails",
        &still(MORNING),
        &mut station,
        &day,
    )
}

fn play_all(rt: &HostRuntime, here: Airport) -> io::Result<()> {
    let mut station = PlainStation::new(rt.alloc(), here);
    let clock = still(MORNING);
    let day = [TAKE_IN, HOLDER, TAKE_IN, STOCK];
    play(rt, "one after another", &clock, &mut station, &day)?;
    let cut = [&TAKE_IN[..90], HOLDER];
    play(rt, "an input that ends early", &clock, &mut station, &cut)?;
    let long = long_request(rt, 7000)?;
    let longs = [long.as_str(), HOLDER];
    play(rt, "a body that is too long", &clock, &mut station, &longs)?;
    play_refused(rt, &mut station)?;
    play_slow(rt, &mut station)?;
    play_silent(rt, &mut station)?;
    let early = still(0);
    play(
        rt,
        "a clock out of range",
        &early,
        &mut station,
        &[HOLDER, HOLDER],
    )
}

/// Plays the service over loopback, and prints each answer and each end. It fails if a socket or
/// printing fails, or memory runs out.
pub fn run_service(rt: &HostRuntime) -> io::Result<()> {
    let Some(here) = Airport::read(b"FRA") else {
        return Err(io::Error::from(ErrorKind::InvalidInput));
    };
    play_all(rt, here)?;
    play_failing(rt, here)
}
