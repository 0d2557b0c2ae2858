//! The cargo desk of one air cargo station.
#![tactic(auto)]

mod client;
mod files;
mod task;
mod telegram_files;

use cli_call::{DeskFault, Service, version_line};
use cli_run::{RunFault, run_read};
use cli_words::{Line, LineCommand, WordsFault, parse_words, usage_fault};
use client::ask_port;
use desk_server::{Setting, Zone, listen, moment_now};
use station_core::{Counted, InputReader};
use station_days::Moment;
use std::cell::RefCell;
use std::fs::File;
use std::io::{ErrorKind, Stdin};
use std::process::ExitCode;
use std::{env, io};
use task::{Task, end_call, faulted, run_over};
use telegram_files::{Telegrams, owned_paths, tell_unread};

/// The message for a text that isn't a zone's rule.
const NO_ZONE: &str = "--zone takes a POSIX rule, such as UTC0 or CET-1CEST,M3.5.0,M10.5.0/3";

/// Ends a call with a requested text on standard output.
fn tell(rt: &HostRuntime, text: &str) -> u8 {
    match print!(rt; "{text}") {
        Ok(()) => 0,
        Err(_) => faulted(rt, RunFault::Write),
    }
}

/// Ends a call whose words aren't a command: with the usage on standard error, or the help or the
/// version on standard output.
fn refuse_words(rt: &HostRuntime, fault: &WordsFault) -> u8 {
    match fault {
        WordsFault::Help(text) => tell(rt, text.as_str()),
        WordsFault::Version => match version_line(rt.alloc()) {
            Ok(line) => tell(rt, line.as_str()),
            Err(_) => faulted(rt, RunFault::Memory),
        },
        WordsFault::Usage(text) => {
            let _told = eprint!(rt; "{text}");
            2
        }
        WordsFault::Memory => faulted(rt, RunFault::Memory),
    }
}

/// The place where a command runs.
#[derive(Clone, Copy)]
enum Way {
    /// On the station of the command line, at a moment.
    Station(Moment),
    /// On the service at a port.
    Service(u16),
}

fn run_inputs<R: InputReader + Drop>(rt: &HostRuntime, line: &Line<'_>, way: Way, reader: R) -> u8 {
    match way {
        Way::Station(at) => run_over(rt, line, Task::Run { reader, at }),
        Way::Service(port) => ask_port(rt, &line.command, port, reader),
    }
}

/// Takes the telegrams of files, of which the first is open.
fn take_files<'a>(
    rt: &'a HostRuntime,
    line: &Line<'_>,
    paths: &'a [String],
    first: File,
    way: Way,
) -> u8 {
    let unread = RefCell::new(None);
    let reader = Telegrams::new(rt, paths, &unread, first);
    let status = run_inputs(rt, line, way, reader);
    tell_unread(rt, paths, &unread);
    status
}

/// Runs a command line on its telegram files or standard input.
fn run_way(rt: &HostRuntime, line: &Line<'_>, way: Way) -> u8 {
    let LineCommand::Take(paths) = &line.command else {
        return run_inputs(rt, line, way, rt.stdin());
    };
    let paths = paths.as_slice();
    let path = paths.first().copied().unwrap_or("");
    match File::open(rt, path) {
        Ok(first) => match owned_paths(rt.alloc(), paths) {
            Ok(paths) => take_files(rt, line, paths.as_slice(), first, way),
            Err(_) => faulted(rt, RunFault::Memory),
        },
        Err(error) => {
            let status = faulted(rt, RunFault::Read);
            let _told = eprint!(rt; "{path}: {error}\n");
            status
        }
    }
}

/// Writes the dry run of the telegram in an open file.
fn read_open(rt: &HostRuntime, paths: &[String], file: File) -> u8 {
    let unread = RefCell::new(None);
    let mut reader = Counted::new(Telegrams::new(rt, paths, &unread, file));
    let mut output = Counted::new(rt.stdout());
    let mut errors = Counted::new(rt.stderr());
    let seen = run_read(rt.alloc(), &mut reader, &mut output, &mut errors);
    let status = end_call(rt, ran(seen));
    tell_unread(rt, paths, &unread);
    status
}

/// Writes the dry run of a telegram's file, without a station.
fn read_file(rt: &HostRuntime, path: &str) -> u8 {
    match File::open(rt, path) {
        Ok(file) => match owned_paths(rt.alloc(), &[path]) {
            Ok(paths) => read_open(rt, paths.as_slice(), file),
            Err(_) => faulted(rt, RunFault::Memory),
        },
        Err(error) => {
            let status = faulted(rt, RunFault::Read);
            let _told = eprint!(rt; "{path}: {error}\n");
            status
        }
    }
}

/// Returns the end of a call that needed no station.
fn ran(good: Result<bool, RunFault>) -> Result<bool, DeskFault> {
    match good {
        Ok(good) => Ok(good),
        Err(fault) => Err(DeskFault::Run(fault)),
    }
}

/// Serves the station of a command line on a port.
fn serve_at(rt: &HostRuntime, line: &Line<'_>, zone: &Zone, port: u16, count: Option<u32>) -> u8 {
    match listen(rt, port) {
        Ok(listener) => {
            let task: Task<'_, Stdin> = Task::Serve(Service {
                net: rt,
                setting: Setting {
                    alloc: rt.alloc(),
                    clock: rt,
                    zone,
                },
                listener: &listener,
                count,
            });
            run_over(rt, line, task)
        }
        Err(error) => {
            let status = faulted(rt, RunFault::Read);
            let _told = eprint!(rt; "port {port}: {error}\n");
            status
        }
    }
}

/// Runs a command line. The clock is read once, by `serve` once for each connection, and not at all
/// for a running service, which uses its own.
fn run_call(rt: &HostRuntime, line: &Line<'_>) -> u8 {
    let Some(zone) = Zone::read(line.zone) else {
        return refuse_words(rt, &usage_fault(rt.alloc(), NO_ZONE));
    };
    if let LineCommand::Serve { port, count } = line.command {
        return serve_at(rt, line, &zone, port, count);
    }
    if let LineCommand::Read(path) = line.command {
        return read_file(rt, path);
    }
    if let Some(port) = line.at {
        return run_way(rt, line, Way::Service(port));
    }
    match moment_now(rt, &zone) {
        Some(at) => run_way(rt, line, Way::Station(at)),
        None => end_call(rt, Err(DeskFault::Clock)),
    }
}

fn words_of(rt: &HostRuntime) -> Result<Vec<String>, io::Error> {
    let words = env::args(rt)?.collect(rt.alloc())?;
    Ok(words)
}

/// Ends a call whose words can't be read: one of them isn't UTF-8, or memory ran out.
fn refuse_call(rt: &HostRuntime, error: &io::Error) -> u8 {
    if error.kind() == ErrorKind::InvalidData {
        return refuse_words(rt, &usage_fault(rt.alloc(), "an argument isn't UTF-8"));
    }
    faulted(rt, RunFault::Memory)
}

/// Returns exit status 0; 1 if something was refused or is unknown, or a row or a body was bad; 2
/// for wrong usage; 3 for a fault; 4 if the file has no station for the command, or isn't empty for
/// `init`.
fn main(rt: HostRuntime) -> ExitCode {
    let status = match words_of(&rt) {
        Ok(words) => match parse_words(rt.alloc(), words.as_slice()) {
            Ok(line) => run_call(&rt, &line),
            Err(fault) => refuse_words(&rt, &fault),
        },
        Err(error) => refuse_call(&rt, &error),
    };
    ExitCode::from(status)
}
