//! Fields, messages, commands, orders and replies, each read or written as a line of `NAME.cases`
//! says, such as `airport 'FRA' = FRA`; and requests over HTTP (`http`). Run `run_memory` with each
//! allocation failing in turn.
#![tactic(auto)]

mod arrivals;
mod commands;
mod counted_ends;
mod ffm;
mod fields;
mod fsu;
mod given;
pub mod http;
mod lines;
mod memory;
mod orders;
mod replies;
mod said;
mod sent;

use agent_stock::PlainRows;
use memory::{MESSAGES, is_told};
use std::alloc::Global;
use std::io;
use std::time::Instant;
use test_kit::{Answers, go_through_file, print_told};

/// The files of the folder `messages`, in the order of their runs.
pub const FILES: &[&str] = &[
    "numbers",
    "fields",
    "quantities",
    "consignments",
    "lines",
    "fwb",
    "ffm",
    "fsu",
    "updates",
    "arrivals",
    "look",
    "notices",
    "commands",
    "bodies",
    "orders",
    "replies",
];

#[derive(Drop)]
struct FileAnswers<'a> {
    alloc: Global,
    file: &'a str,
    stock: PlainRows,
}

impl Answers for FileAnswers<'_> {
    fn answer(&mut self, asked: &str, text: &[u8]) -> Option<String> {
        let alloc = self.alloc;
        match self.file {
            "numbers" => fields::numbers(alloc, asked, text),
            "fields" => fields::answer(alloc, asked, text),
            "quantities" => fields::quantities(alloc, asked, text),
            "consignments" => lines::consignments(alloc, asked, text),
            "lines" => lines::answer(alloc, asked, text),
            "fwb" => lines::waybills(alloc, asked, text),
            "ffm" => ffm::answer(alloc, asked, text),
            "fsu" => fsu::answer(alloc, asked, text),
            "updates" => sent::updates(alloc, asked, text),
            "arrivals" => arrivals::answer(alloc, asked, text),
            "look" => arrivals::look(alloc, asked, text),
            "notices" => sent::notices(alloc, asked, text),
            "commands" | "bodies" => commands::answer(alloc, asked, text),
            "orders" => orders::answer(alloc, &mut self.stock, asked, text),
            "replies" => replies::answer(alloc, asked, text),
            "counted-ends" => counted_ends::answer(alloc, asked, text),
            _ => None,
        }
    }
}

/// Runs a file of cases like `go_through_file`.
pub fn run_file(rt: &HostRuntime, folder: &str, file: &str) -> Result<bool, io::Error> {
    let mut answers = FileAnswers {
        alloc: rt.alloc(),
        file,
        stock: PlainRows::new(rt.alloc()),
    };
    go_through_file(rt, folder, file, &mut answers)
}

/// Prints the outcome for each message. Returns whether all are as expected.
pub fn run_memory(rt: &HostRuntime) -> Result<bool, io::Error> {
    let mut all = true;
    for message in MESSAGES {
        all &= print_told(rt, message, is_told(rt.alloc(), message))?;
    }
    Ok(all)
}

const TIMES: u64 = 100_000;

/// Prints how often a second each message is written and read. Returns whether each was. It fails
/// if printing fails or the clock can't be read.
pub fn run_bench(rt: &HostRuntime) -> Result<bool, io::Error> {
    println!(rt; "  a second    ns each  message")?;
    let mut all = true;
    for message in MESSAGES {
        let start = Instant::now(rt)?;
        for _ in 0..TIMES {
            all &= is_told(rt.alloc(), message);
        }
        let spent = start.elapsed(rt)?.as_nanos();
        let nanos = u64::try_from(spent).unwrap_or(u64::MAX).max(1);
        let rate = TIMES.saturating_mul(1_000_000_000) / nanos;
        println!(rt; "{rate:>10} {:>10}  {message}", nanos / TIMES)?;
    }
    Ok(all)
}
