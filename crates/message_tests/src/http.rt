//! HTTP requests to the desk of a station, as scripts of plain text, with each answer compared to
//! the byte; and the service on a port (`run_service`).
//!
//! The statements, one a line:
//!
//! - `station FRA`: a new, empty station;
//! - `at 2026-01-12 10:30`: the moment of all that follows;
//! - `act VERB KEY BODY`: a command, its body one line of JSON. The station must accept it;
//! - `request`: a connection. It sends the `|` and `>` lines below, and is answered by the `=`
//!   lines, or not at all.
//!
//! `| TEXT` sends a text followed by CR LF, `|/ TEXT` by LF, and `|+ TEXT` by nothing. `|x DIGITS`
//! sends the bytes of hexadecimal digits. A number after the sign, as in `|64 A: 1` or `|+300 x`,
//! repeats it. `> TEXT` in the same way sends bytes after the request, which is answered without
//! them, and `= TEXT` is a part of the answer. Empty lines and those that begin with `#` are
//! ignored.
//!
//! A request is played many times, each time on a station with the same history (only a POST that
//! is answered 200 changes it):
//!
//! - in one piece, one byte a read and one byte a write, and with an interrupted read before each
//!   byte;
//! - cut short: nothing is written, and the station is unchanged;
//! - with writers that fail, or take nothing, after a prefix of the answer: the station is as after
//!   the whole answer, and answers the same request in the same way.
//!
//! The prefixes are the empty one, half of the bytes, and all but one byte; for `request every`
//! each one. `request early` may be answered before all of its `|` bytes arrived. `request long` is
//! played only in one piece and in reads of 64 bytes, `request after 9` once, after nine
//! interrupted reads.

mod desk;
mod ends;
mod line;
mod log;
mod play;
mod reading;
mod script;
mod service;

use crate::http::log::Log;
use crate::http::script::ScriptFault;
pub use crate::http::service::run_service;
use std::alloc::{AllocError, Global};
use std::{fs, io};

/// The scripts, in the order of their runs: `http/NAME.http`.
pub const FILES: &[&str] = &[
    "orders",
    "bodies",
    "lengths",
    "heads",
    "routes",
    "looks",
    "cargo",
    "telegrams",
    "read",
    "check",
    "reports",
    "origins",
];

fn fault_text(alloc: Global, name: &str, fault: &ScriptFault) -> Result<String, AllocError> {
    match fault {
        ScriptFault::Bad { line, why } => format!(in alloc; "{name}:{line}: {why}\n"),
        ScriptFault::Memory => format!(in alloc; "{name}: out of memory\n"),
    }
}

fn verdict(alloc: Global, name: &str, log: &Log) -> Result<String, AllocError> {
    let (answers, differences, differing) = (log.answers, log.differences, &log.text);
    if differences > 0 {
        format!(in alloc; "{differing}{name}: answers that differ: {differences}\n")
    } else {
        format!(in alloc; "{name}: {answers} answers as told\n")
    }
}

/// Returns whether each answer of a script is as expected, and the output.
fn play_script(alloc: Global, name: &str, text: &str) -> Result<(bool, String), AllocError> {
    let mut log = Log::new(alloc);
    let played = match reading::read_script(alloc, text) {
        Ok(stories) => play::play(alloc, &stories, &mut log),
        Err(fault) => Err(fault),
    };
    match played {
        Ok(()) => Ok((log.differences == 0, verdict(alloc, name, &log)?)),
        Err(fault) => Ok((false, fault_text(alloc, name, &fault)?)),
    }
}

/// Plays a script, and prints its verdict. Returns whether each answer is as expected. It fails if
/// printing fails or memory runs out.
pub fn run_file(rt: &HostRuntime, file: &str) -> Result<bool, io::Error> {
    let name = format!(in rt.alloc(); "{file}.http")?;
    let path = format!(in rt.alloc(); "http/{name}")?;
    let Ok(script) = fs::read_to_string(rt, path.as_str()) else {
        println!(rt; "{path}: can't be read")?;
        return Ok(false);
    };
    let (is_told, text) = play_script(rt.alloc(), name.as_str(), script.as_str())?;
    print!(rt; "{text}")?;
    Ok(is_told)
}
