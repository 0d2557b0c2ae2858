//! Days at a cargo station, as scripts of plain text. Each is played on every keeper, and its
//! output compared with the `=` lines. One keeper has its tables opened again before each
//! statement, and in a long day before each tenth.
//!
//! The statements, one a line:
//!
//! - `station FRA`: a new, empty station;
//! - `at 2026-01-12 10:30`: the moment of all that follows;
//! - `act VERB KEY BODY`: a command, its body one line of JSON;
//! - `take`, `take lf`, `take hex`: a telegram, from the `|` lines below;
//! - `beginnings`: each prefix of the bytes of the `|` lines as a telegram. It prints a line for
//!   each run of equal answers;
//! - `stock`: the `|` lines below as rows of a stock list: key, verb, prefix, serial, count and
//!   agent;
//! - `waybill NUMBER`, `holder NUMBER`: a record as a JSON object, or `none`;
//! - `outbox`, `report NAME`: a report;
//! - `outbox 20`: the messages as written to a writer that fails after this many bytes, and the
//!   number of bytes in the fault;
//! - `request`: an HTTP request, from the `|` lines below, each ended by CR LF.
//!
//! `take` ends each `| TEXT` by CR LF, `take lf` and `beginnings` by LF; `take hex` sends the bytes
//! of its digits. `|998 TEXT` means 998 such lines. A CR at the end of a printed line doesn't
//! count. Empty lines and those that begin with `#` are ignored.
//!
//! Run `run_memory` with each allocation failing in turn.
#![tactic(auto)]

mod asking;
mod cargo;
mod compare;
mod day;
mod desk;
mod first_steps;
mod memory;
mod objects;
mod play;
mod reading;
mod rule;
mod statement;
mod telegram;
mod waybill;

use cargo::CargoAnswers;
use day::{Day, DayFault};
use desk::Kind;
pub use first_steps::run as run_first_steps;
use memory::{Trial, is_told, trail_at_last};
use play::Played;
pub use rule::Inputs;
use std::alloc::{AllocError, Global};
use std::{fs, io};
use test_kit::{go_through_file, print_told};

/// The scripts, in the order of their runs: `days/NAME.day`.
pub const FILES: &[&str] = &[
    "small_desk",
    "stock",
    "orders",
    "declared",
    "departure",
    "full_flight",
    "arrival",
    "desk",
    "transfer",
    "mistakes",
    "corrections",
    "lists",
    "repeats",
    "bodies",
    "telegrams",
    "calendar",
    "http",
    "listings",
    "evened",
    "inbound",
    "shed",
    "waiting",
    "manifests",
];

fn verdict(
    alloc: Global,
    name: &str,
    day: &Day<'_>,
    played: &Played,
) -> Result<String, AllocError> {
    let told = day.told();
    let differences = played.differences;
    if differences > 0 {
        let log = &played.log;
        return format!(in alloc; "{log}{name}: lines that differ: {differences}\n");
    }
    let openings = played.openings;
    format!(in alloc; "{name}: {told} lines as told, opened again {openings} times\n")
}

fn play_on_all(alloc: Global, name: &str, day: &Day<'_>) -> Result<Played, DayFault> {
    let mut played = Played::new(alloc);
    play::play(alloc, name, day, Kind::Plain, &mut played)?;
    play::play(alloc, name, day, Kind::Maps, &mut played)?;
    play::play(alloc, name, day, Kind::Tables, &mut played)?;
    play::play(alloc, name, day, Kind::Reopened, &mut played)?;
    Ok(played)
}

fn fault_text(alloc: Global, name: &str, fault: &DayFault) -> Result<String, AllocError> {
    match fault {
        DayFault::Bad { line, why } => format!(in alloc; "{name}:{line}: {why}\n"),
        DayFault::Unopened { line, fault } => {
            format!(in alloc; "{name}:{line}: can't be opened again: {fault:?}\n")
        }
        DayFault::Memory => format!(in alloc; "{name}: out of memory\n"),
    }
}

/// Returns whether a script went as expected, and the output.
fn play_script(alloc: Global, name: &str, script: &str) -> Result<(bool, String), AllocError> {
    let day = match reading::read_day(alloc, script) {
        Ok(day) => day,
        Err(fault) => return Ok((false, fault_text(alloc, name, &fault)?)),
    };
    match play_on_all(alloc, name, &day) {
        Ok(played) => {
            let is_told = played.differences == 0;
            Ok((is_told, verdict(alloc, name, &day, &played)?))
        }
        Err(fault) => Ok((false, fault_text(alloc, name, &fault)?)),
    }
}

/// Plays a script on each keeper, and prints its verdict. Returns whether each line was as
/// expected. It fails if printing fails or memory runs out.
pub fn run_file(rt: &HostRuntime, file: &str) -> Result<bool, io::Error> {
    let name = format!(in rt.alloc(); "{file}.day")?;
    let path = format!(in rt.alloc(); "days/{name}")?;
    let Ok(script) = fs::read_to_string(rt, path.as_str()) else {
        println!(rt; "{path}: can't be read")?;
        return Ok(false);
    };
    let (is_told, text) = play_script(rt.alloc(), name.as_str(), script.as_str())?;
    print!(rt; "{text}")?;
    Ok(is_told)
}

fn rule_told(given: Inputs, are_equal: Option<bool>) -> &'static str {
    match (are_equal, given) {
        (Some(true), Inputs::Mixed) => "200 inputs with equal answers and rows",
        (Some(true), Inputs::Orders) => "2,000 orders with equal answers and rows",
        (Some(false), _) => "answers or rows differ",
        (None, _) => "a keeper failed, or too few inputs were accepted or refused",
    }
}

/// Passes each keeper inputs by a rule, and prints the verdict. Returns whether all answers and
/// rows are equal. It fails if printing fails or memory runs out.
pub fn run_by_rule(rt: &HostRuntime, given: Inputs) -> Result<bool, io::Error> {
    let are_equal = rule::are_equal(rt.alloc(), given);
    println!(rt; "{}: {}", given.name(), rule_told(given, are_equal))?;
    Ok(are_equal == Some(true))
}

/// Runs a file of cases like `go_through_file`.
pub fn run_cases(rt: &HostRuntime, folder: &str, file: &str) -> Result<bool, io::Error> {
    let mut answers = CargoAnswers { alloc: rt.alloc() };
    go_through_file(rt, folder, file, &mut answers)
}

/// Prints the outcome of a trail of two rows, and returns whether it is as expected.
fn run_trail(rt: &HostRuntime) -> Result<bool, io::Error> {
    let Some(told) = trail_at_last(rt.alloc()) else {
        return Ok(false);
    };
    println!(rt; "memory: a trail of two rows: {told}")?;
    Ok(told.starts_with("told"))
}

/// Prints the outcomes of stations for which memory may run out, and returns whether all are as
/// expected. It fails if printing fails or memory runs out.
pub fn run_memory(rt: &HostRuntime) -> Result<bool, io::Error> {
    let mut all = true;
    for (what, kind, trial) in [
        ("cargo in memory", Kind::Plain, Trial::Cargo),
        (
            "a station in memory",
            Kind::Plain,
            Trial::InTurn { may_break: false },
        ),
        (
            "a station over tables",
            Kind::Tables,
            Trial::InTurn { may_break: true },
        ),
    ] {
        all &= print_told(rt, what, is_told(rt.alloc(), kind, trial))?;
    }
    Ok(all && run_trail(rt)?)
}
