//! The tests of public calls from data. Libraries play them, each case in the lowest one that can.
//! The words select the parts (README.md), or one file of a part, such as `days/stock`.
#![tactic(auto)]

use desk_days::Inputs;
use std::process::ExitCode;
use std::{env, io};

/// The files of the folder `station`.
const STATION_FILES: &[&str] = &["rows", "tables", "counted-ends", "cargo"];

/// Returns the files of a part, in the order of their runs.
fn files_of(part: &str) -> &'static [&'static str] {
    match part {
        "days" => desk_days::FILES,
        "messages" => message_tests::FILES,
        "station" => STATION_FILES,
        "found" => found_tests::FILES,
        "lines" => line_tests::FILES,
        "http" => message_tests::http::FILES,
        _ => &[],
    }
}

fn run_station_file(rt: &HostRuntime, file: &str) -> Result<bool, io::Error> {
    match file {
        "counted-ends" => message_tests::run_file(rt, "station", file),
        "cargo" => desk_days::run_cases(rt, "station", file),
        _ => found_tests::run_file(rt, "station", file),
    }
}

fn run_file(rt: &HostRuntime, part: &str, file: &str) -> Result<Option<bool>, io::Error> {
    Ok(Some(match part {
        "days" => desk_days::run_file(rt, file)?,
        "messages" => message_tests::run_file(rt, part, file)?,
        "station" => run_station_file(rt, file)?,
        "found" => found_tests::run_file(rt, part, file)?,
        "lines" => line_tests::run_file(rt, file)?,
        "http" => message_tests::http::run_file(rt, file)?,
        _ => return Ok(None),
    }))
}

/// Returns whether each file of a part passed, or `None` for an unknown part.
fn run_files(rt: &HostRuntime, part: &str) -> Result<Option<bool>, io::Error> {
    let files = files_of(part);
    let mut all = true;
    for file in files {
        all &= run_file(rt, part, file)? == Some(true);
    }
    Ok(if files.is_empty() { None } else { Some(all) })
}

/// Returns whether the part in a word passed, or `None` for an unknown word.
fn run_word(rt: &HostRuntime, word: &str) -> Result<Option<bool>, io::Error> {
    if let Some((part, file)) = word.split_once('/') {
        return run_file(rt, part, file);
    }
    Ok(Some(match word {
        "by-rule" => desk_days::run_by_rule(rt, Inputs::Mixed)?,
        "orders-by-rule" => desk_days::run_by_rule(rt, Inputs::Orders)?,
        "station-memory" => message_tests::run_memory(rt)? & desk_days::run_memory(rt)?,
        "found-memory" => found_tests::run_memory(rt)?,
        "service" => {
            message_tests::http::run_service(rt)?;
            true
        }
        "first-steps" => desk_days::run_first_steps(rt)?,
        "bench" => message_tests::run_bench(rt)?,
        _ => return run_files(rt, word),
    }))
}

/// Returns exit status 0 if everything passed, 1 if something failed, and 2 for wrong words.
fn main(rt: HostRuntime) -> Result<ExitCode, io::Error> {
    let words: Vec<String> = env::args(&rt)?.collect(rt.alloc())?;
    let mut status = 0;
    if words.len() < 2 {
        eprintln!(rt; "usage: desk_tests PART.. (the parts are in README.md)")?;
        status = 2;
    }
    for word in words.iter().skip(1) {
        println!(rt; "# {word}")?;
        let own = match run_word(&rt, word.as_str())? {
            Some(true) => 0,
            Some(false) => 1,
            None => {
                eprintln!(rt; "unknown part '{word}'")?;
                2
            }
        };
        status = own.max(status);
    }
    Ok(ExitCode::from(status))
}
